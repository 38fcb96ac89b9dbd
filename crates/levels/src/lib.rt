// The least top level at which a circuit fits.
#![tactic(auto)]

ghost use Rattle.std.specs.Prelude.{◌≡◌, ◌≤◌, ◌<◌, IfErr};
ghost use Rattle.model.specs.Scales.{with_top};
ghost use Rattle.text.specs.Tables.{file_of};
ghost use Rattle.model.specs.Answers.{least_level};
ghost use Rattle.model.specs.Refusals.{level_answer};
ghost use Rattle.tables.specs.Files.{circuit_held};

use model::{Header, Refusal};
use tables::files::CircuitTable;

// The last top level that is tried.
const LAST_LEVEL: u32 = 60;

// The header with another top level.
fn with_top(header: Header, level: u32) -> Header
    ensures { result ≡ with_top header level }
{
    Header {
        top: level,
        ..header
    }
}

// The first level from 1 to 60 at which every line has a best reserve, or the refusal at 60. Document 01 names this form: a labelled loop, left by break.
pub fn least_level(circuit: &CircuitTable) -> Result<u32, Refusal>
    ensures answer { level_answer result ≡ least_level (file_of (circuit_held circuit.now)) }
    ensures placed { IfErr result (λ r. 0 < r.place) }
{
    let mut reserves = [0i32; 256];
    let mut level: u32 = 1;
    let least = 'levels: loop {
        let header = with_top(circuit.header, level);
        for i in 0..circuit.count {
            match reserves::reserve_of(header, circuit.records, &reserves, i) {
                Ok(reserve) => reserves[i] = reserve,
                Err(fault) => {
                    if level == LAST_LEVEL {
                        return Err(Refusal {
                            fault,
                            place: (i as u32) + 2,
                        });
                    }
                    level += 1;
                    continue 'levels;
                }
            }
        }
        break 'levels level;
    };
    Ok(least)
}
