// Kinds of values, and whether operands are what a line asks for.
ghost use Rattle.std.specs.Prelude.{◌≡◌, ◌&&◌};
ghost use Rattle.model.specs.Files.{is_ciphertext, is_constant, is_usable, is_plaintext, is_pair};
ghost use Rattle.judging.specs.Judging.{fitness};

use model::{Fault, Grammar, Kind};

fn is_usable(kind: Kind) -> bool
    ensures { result ≡ is_usable kind }
{
    kind != Kind::Nothing
}

// What may stand beside a ciphertext in an `add` or a `mul`.
fn is_plaintext(grammar: Grammar, kind: Kind) -> bool
    ensures { result ≡ is_plaintext grammar kind }
{
    match grammar {
        Grammar::Circuit => kind == Kind::Constant,
        Grammar::Schedule => kind == Kind::Encoded,
    }
}

fn is_pair(grammar: Grammar, first: Kind, second: Kind) -> bool
    ensures { result ≡ is_pair grammar first second }
{
    if tables::is_ciphertext(first) {
        return tables::is_ciphertext(second) || is_plaintext(grammar, second);
    }
    is_plaintext(grammar, first) && tables::is_ciphertext(second)
}

// That an operand cannot be used comes before that one is of the wrong kind.
fn fitness(usable: bool, fit: bool) -> Result<(), Fault>
    ensures { result ≡ fitness usable fit }
{
    if !usable {
        return Err(Fault::NoUsableLine);
    }
    if !fit {
        return Err(Fault::WrongKind);
    }
    Ok(())
}

pub fn ciphertext(kind: Kind) -> Result<(), Fault>
    ensures { result ≡ fitness (is_usable kind) (is_ciphertext kind) }
{
    fitness(is_usable(kind), tables::is_ciphertext(kind))
}

pub fn constant(kind: Kind) -> Result<(), Fault>
    ensures { result ≡ fitness (is_usable kind) (is_constant kind) }
{
    fitness(is_usable(kind), kind == Kind::Constant)
}

pub fn pair(grammar: Grammar, first: Kind, second: Kind) -> Result<(), Fault>
    ensures { result ≡ fitness (is_usable first && is_usable second) (is_pair grammar first second) }
{
    fitness(
        is_usable(first) && is_usable(second),
        is_pair(grammar, first, second),
    )
}
