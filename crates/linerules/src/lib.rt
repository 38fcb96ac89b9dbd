// The rules of one line: the scale and the level that it holds, from those that its operands hold.
#![tactic(auto)]

ghost use Rattle.std.specs.Prelude.{◌≡◌, ◌≤◌, T, IfOk};
ghost use Rattle.model.specs.Scales.{header_in_range};
ghost use Rattle.model.specs.Files.{in_range};
ghost use Rattle.listings.specs.Held.{counted_line};
ghost use Rattle.bounds.specs.Bounded.{stepped, Small, SmallNumbers};
ghost use Rattle.linerules.specs.Ruled.{moved_by, sum_of, product_of, downscaled_of, ruled_by};

use bounds::Held;
use model::{Fault, Header, Line};

// A scale raised by some bits and lowered by some, at some levels less.
fn moved(header: Header, x: Held, raised: u32, lowered: u32, levels: u32) -> Result<Held, Fault>
    requires t { T (header_in_range header) }
    requires small_2 { Small x }
    requires raised_bound { raised ≤ 3600 }
    requires small_numbers { SmallNumbers lowered levels }
    ensures value { stepped result ≡ moved_by header x raised lowered levels }
    ensures small { IfOk result Small }
{
    let scale = bounds::difference((x.scale as u32) + raised, lowered);
    let level = bounds::difference(x.level as u32, levels);
    bounds::bounded(header, scale, level)
}

// Equal levels (7) and scales (8), both kept.
fn sum(header: Header, x: Held, y: Held) -> Result<Held, Fault>
    requires t { T (header_in_range header) }
    requires small_2 { Small x }
    ensures value { stepped result ≡ sum_of header x y }
    ensures small { IfOk result Small }
{
    if x.level != y.level {
        return Err(Fault::LevelsDiffer);
    }
    if x.scale != y.scale {
        return Err(Fault::ScalesDiffer);
    }
    bounds::bounded_natural(header, x.scale as u32, x.level as u32)
}

// Equal levels (7), kept; the scales are summed.
fn product(header: Header, x: Held, y: Held) -> Result<Held, Fault>
    requires t { T (header_in_range header) }
    requires small_2 { Small x }
    requires small_3 { Small y }
    ensures value { stepped result ≡ product_of header x y }
    ensures small { IfOk result Small }
{
    if x.level == y.level {
        let scale = (x.scale as u32) + (y.scale as u32);
        return bounds::bounded_natural(header, scale, x.level as u32);
    }
    Err(Fault::LevelsDiffer)
}

// A scale below W + F (14), raised to W + F, which is asked of its level (9), and rescaled by 1: to W at one level less.
fn downscaled(header: Header, x: Held) -> Result<Held, Fault>
    requires t { T (header_in_range header) }
    requires small_2 { Small x }
    ensures value { stepped result ≡ downscaled_of header x }
    ensures small { IfOk result Small }
{
    let raised = header.waterline + header.factor;
    if raised <= (x.scale as u32) {
        return Err(Fault::TooHighForDownscale);
    }
    let kept = bounds::bounded_natural(header, raised, x.level as u32)?;
    Ok(Held {
        scale: header.waterline as u16,
        level: kept.level - 1,
    })
}

// A line whose operands hold x and y; a rescale by 0 is a `ds`.
#[tactic(auto, unfolding(crate::specs::Ruled::ruled_by))]
pub fn ruled(header: Header, line: Line, x: Held, y: Held) -> Result<Held, Fault>
    requires t { T (header_in_range header) }
    requires t_2 { T (in_range header (counted_line line)) }
    requires small_2 { Small x }
    requires small_3 { Small y }
    ensures value { stepped result ≡ ruled_by header line x y }
    ensures small { IfOk result Small }
{
    match line {
        Line::In => bounds::bounded_natural(header, header.waterline, header.top),
        Line::Const(_) => Ok(Held { scale: 0, level: 0 }),
        Line::Neg(_) => moved(header, x, 0, 0, 0),
        Line::Rot(_, _) => moved(header, x, 0, 0, 0),
        Line::Add(_, _) => sum(header, x, y),
        Line::Mul(_, _) => product(header, x, y),
        Line::Out(_) => moved(header, x, 0, 0, 0),
        Line::Enc { scale, level, .. } => bounds::bounded_natural(
            header,
            scale as u32,
            level as u32,
        ),
        Line::Rs(_, count) => {
            if count == 0 {
                return downscaled(header, x);
            }
            let lowered = header.factor * (count as u32);
            moved(header, x, 0, lowered, count as u32)
        }
        Line::Ms(_, count) => moved(header, x, 0, 0, count as u32),
        Line::Us(_, bits) => moved(header, x, bits as u32, 0, 0),
        Line::Free => Ok(Held { scale: 0, level: 0 }),
    }
}
