//! Work that sets condition codes, together with the branch after it.

ghost use Rattle.std.specs.Prelude.{◌≡◌, ◌⊎◌, Some};
ghost use Rattle.predecode.specs.Kinds.{does, follows, is_exit};
ghost use Rattle.predecode.specs.declared.kinds.Kind.TheVariants.{CompareNumber, CompareRegister};

use crate::kinds::Kind;

/// The kind of work after which a branch on a condition stands, or its own where both have none.
pub fn pair_for(kind: Kind, condition: u8) -> Kind
    // A row of a pair does what its first row does.
    ensures work { does result ≡ does kind }
    // It goes on where that goes on.
    ensures exit { is_exit result ≡ is_exit kind }
    // It says the condition of the branch that follows, or is as it was.
    ensures pair { (result ≡ kind) ⊎ (follows result ≡ Some condition) }
{
    match kind {
        Kind::CompareNumber => number_pair(condition),
        Kind::CompareRegister => register_pair(condition),
        Kind::AddCc => one_or(condition, Kind::AddCc, Kind::AddE, Kind::AddNe),
        Kind::SubCc => one_or(condition, Kind::SubCc, Kind::SubE, Kind::SubNe),
        Kind::AndCc => one_or(condition, Kind::AndCc, Kind::AndE, Kind::AndNe),
        Kind::OrCc => one_or(condition, Kind::OrCc, Kind::OrE, Kind::OrNe),
        _ => kind,
    }
}

// The kind of work after which a branch on equality or its opposite stands.
fn one_or(condition: u8, alone: Kind, equal: Kind, not_equal: Kind) -> Kind
    requires equal { follows equal ≡ Some 1 }
    requires not_equal { follows not_equal ≡ Some 9 }
    requires work { (does equal ≡ does alone) × (does not_equal ≡ does alone) }
    requires exit { (is_exit equal ≡ is_exit alone) × (is_exit not_equal ≡ is_exit alone) }
    ensures work { does result ≡ does alone }
    ensures exit { is_exit result ≡ is_exit alone }
    ensures pair { (result ≡ alone) ⊎ (follows result ≡ Some condition) }
{
    if condition == 1 {
        equal
    } else if condition == 9 {
        not_equal
    } else {
        alone
    }
}

// The kind of a comparison with a number.
fn number_pair(condition: u8) -> Kind
    ensures work { does result ≡ does CompareNumber }
    ensures exit { is_exit result ≡ is_exit CompareNumber }
    ensures pair { (result ≡ CompareNumber) ⊎ (follows result ≡ Some condition) }
{
    match condition {
        1 => Kind::CompareNumberE,
        2 => Kind::CompareNumberLe,
        3 => Kind::CompareNumberL,
        4 => Kind::CompareNumberLeu,
        5 => Kind::CompareNumberCs,
        9 => Kind::CompareNumberNe,
        10 => Kind::CompareNumberG,
        11 => Kind::CompareNumberGe,
        12 => Kind::CompareNumberGu,
        13 => Kind::CompareNumberCc,
        _ => Kind::CompareNumber,
    }
}

// The kind of a comparison with a register.
fn register_pair(condition: u8) -> Kind
    ensures work { does result ≡ does CompareRegister }
    ensures exit { is_exit result ≡ is_exit CompareRegister }
    ensures pair { (result ≡ CompareRegister) ⊎ (follows result ≡ Some condition) }
{
    match condition {
        1 => Kind::CompareRegisterE,
        2 => Kind::CompareRegisterLe,
        3 => Kind::CompareRegisterL,
        4 => Kind::CompareRegisterLeu,
        5 => Kind::CompareRegisterCs,
        9 => Kind::CompareRegisterNe,
        10 => Kind::CompareRegisterG,
        11 => Kind::CompareRegisterGe,
        12 => Kind::CompareRegisterGu,
        13 => Kind::CompareRegisterCc,
        _ => Kind::CompareRegister,
    }
}

/// Whether an instruction never goes on to the next word, or is left to others.
pub fn is_exit(kind: Kind) -> bool
    // Whether rows of the kind never go on to the next word, or are left to others.
    ensures { result ≡ is_exit kind }
{
    matches!(
        kind,
        Kind::Empty
            | Kind::Other
            | Kind::Call
            | Kind::Jump
            | Kind::Always
            | Kind::AnnullingAlways
            | Kind::Trap
    )
}
