// How a circuit line is done, by what is known of its operands: document 01's choice for its word, or too few levels.
#![tactic(auto)]

ghost use Rattle.std.specs.Prelude.{◌≡◌, true, ◌||◌, T};
ghost use Rattle.model.specs.declared.Best.TheVariants.{Constant};
ghost use Rattle.model.specs.Scales.{header_in_range};
ghost use Rattle.model.specs.Plan.{unless_too_few, choice_of, best_machine};
ghost use Rattle.choices.specs.Ranges.{HeaderRanges, Small};
ghost use Rattle.conversions.specs.Operands.{best_of};
ghost use Rattle.linechoices.specs.Steps.{line_choice, step_on, Known};

use conversions::Operand;
use model::{Choice, Fault, Header, Line};

// A line whose best reserve is below the headroom has too few levels.
#[tactic(auto, using(crate::proofs::ChoiceLaws::headroom_laws))]
fn unless_too_few(header: Header, choice: Choice) -> Result<Choice, Fault>
    requires { T (header_in_range header) }
    ensures { result ≡ line_choice (unless_too_few header choice) }
{
    if choice.reserve < scales::headroom(header) {
        return Err(Fault::TooFewLevels);
    }
    Ok(choice)
}

#[tactic(auto, using(crate::proofs::ChoiceLaws::choice_laws))]
fn unary_choice(header: Header, first: Operand) -> Choice
    requires header_ranges { HeaderRanges header }
    requires small { Small first.reserve }
    requires ciphertext_value { first.ciphertext ≡ true }
    ensures { unless_too_few header result ≡ (best_machine header).neg (best_of first) }
{
    choices::unchanged_choice(header, first.reserve)
}

#[tactic(auto, using(crate::proofs::ChoiceLaws::choice_laws))]
fn sum_choice(header: Header, first: Operand, second: Operand) -> Choice
    requires header_ranges { HeaderRanges header }
    requires small { Small first.reserve }
    requires small_2 { Small second.reserve }
    requires ciphertext_value { (first.ciphertext || second.ciphertext) ≡ true }
    ensures { unless_too_few header result ≡ (best_machine header).add (best_of first) (best_of second) }
{
    if !first.ciphertext {
        return choices::unchanged_choice(header, second.reserve);
    }
    if !second.ciphertext {
        return choices::unchanged_choice(header, first.reserve);
    }
    choices::unchanged_choice(header, choices::smaller_of(first.reserve, second.reserve))
}

#[tactic(auto, using(crate::proofs::ChoiceLaws::choice_laws))]
fn product_choice(header: Header, first: Operand, second: Operand) -> Choice
    requires header_ranges { HeaderRanges header }
    requires small { Small first.reserve }
    requires small_2 { Small second.reserve }
    requires ciphertext_value { (first.ciphertext || second.ciphertext) ≡ true }
    ensures { unless_too_few header result ≡ (best_machine header).mul (best_of first) (best_of second) }
{
    if !first.ciphertext {
        return choices::constant_times_choice(header, second.reserve);
    }
    if !second.ciphertext {
        return choices::times_constant_choice(header, first.reserve);
    }
    choices::product_choice(header, first.reserve, second.reserve)
}

// A bare constant is not done at any level.
fn constant_choice() -> Choice
    ensures { result ≡ choice_of Constant }
{
    Choice {
        level: 0,
        first: 0,
        second: 0,
        reserve: 0,
    }
}

// A ciphertext that is named as it is.
#[tactic(auto, using(crate::proofs::ChoiceLaws::choice_laws))]
fn own_choice(first: Operand) -> Choice
    requires { first.ciphertext ≡ true }
    ensures { result ≡ choice_of (best_of first) }
{
    Choice {
        level: first.level,
        first: first.reserve,
        second: first.reserve,
        reserve: first.reserve,
    }
}

// Any line of a circuit.
#[tactic(auto, using(crate::proofs::WordLaws::word_laws))]
pub fn choice_of(
    header: Header,
    line: Line,
    first: Operand,
    second: Operand,
) -> Result<Choice, Fault>
    requires { Known header line first second }
    ensures { result ≡ line_choice (step_on header line first second) }
{
    match line {
        Line::In => unless_too_few(header, choices::input_choice(header)),
        Line::Const(_) => Ok(constant_choice()),
        Line::Neg(_) => unless_too_few(header, unary_choice(header, first)),
        Line::Rot(_, _) => unless_too_few(header, unary_choice(header, first)),
        Line::Add(_, _) => unless_too_few(header, sum_choice(header, first, second)),
        Line::Mul(_, _) => unless_too_few(header, product_choice(header, first, second)),
        Line::Out(_) => Ok(own_choice(first)),
        // No circuit has these words.
        Line::Enc { .. } => Err(Fault::TooFewLevels),
        Line::Rs(_, _) => Err(Fault::TooFewLevels),
        Line::Ms(_, _) => Err(Fault::TooFewLevels),
        Line::Us(_, _) => Err(Fault::TooFewLevels),
        Line::Free => Err(Fault::TooFewLevels),
    }
}
