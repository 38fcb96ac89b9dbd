// What documents 01 and 02 say of scales and reserves, in code, once for the rules and for the plan.
#![tactic(auto)]

ghost use Rattle.std.specs.Prelude.{T};
ghost use Rattle.model.specs.Scales.{header_in_range};
ghost use Rattle.scales.specs.Headroom.{SmallHeadroom};

use model::Header;

// The headroom, 0 where none is given: the modulus must leave it above a scale, and no best reserve may be below it.
pub fn headroom(header: Header) -> i32
    requires { T (header_in_range header) }
    ensures { SmallHeadroom header result }
{
    header.headroom.unwrap_or(0) as i32
}
