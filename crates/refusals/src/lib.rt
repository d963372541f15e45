// What is turned away, under which number (docs/RULES.md section 8).
#![tactic(auto)]

ghost use Rattle.std.specs.Prelude.{◌≡◌};
ghost use Rattle.refusals.specs.Numbers.{number_of};
ghost use Rattle.refusals.specs.Admitting.{with_test};

// Each reason to turn an input away.
#[derive(Clone, Copy, Debug, PartialEq, Eq, Drop)]
pub enum Refusal {
    Field,
    Empty,
    Long,
    Element,
    AllZero,
    Cutoff,
    Room,
    Unsound,
    Stuck,
    NotDone,
    Mark,
    Short,
    OfZero,
    Count,
    Convention,
    Block,
    Strength,
    Far,
    Order,
}

// The number of a refusal.
impl From<Refusal> for u16 {
    ghost from_gives = { λ r n. n ≡ number_of r };

    fn from(r: Refusal) -> u16 {
        match r {
            Refusal::Field => 1,
            Refusal::Empty => 2,
            Refusal::Long => 3,
            Refusal::Element => 4,
            Refusal::AllZero => 5,
            Refusal::Cutoff => 6,
            Refusal::Room => 7,
            Refusal::Unsound => 8,
            Refusal::Stuck => 9,
            Refusal::NotDone => 10,
            Refusal::Mark => 11,
            Refusal::Short => 12,
            Refusal::OfZero => 13,
            Refusal::Count => 20,
            Refusal::Convention => 21,
            Refusal::Block => 22,
            Refusal::Strength => 23,
            Refusal::Far => 24,
            Refusal::Order => 25,
        }
    }
}

// One test more, behind those that `found` came from: where it holds, what was let in is turned away under k.
pub fn also(found: Result<(), Refusal>, holds: bool, k: Refusal) -> Result<(), Refusal>
    ensures { result ≡ with_test found holds k }
{
    found?;
    if holds {
        return Err(k);
    }
    Ok(())
}
