// Each struct out of what its call answers: 0 and the values, or a refusal's number and zeros behind it.
ghost use Rattle.std.specs.Prelude.{◌≡◌};
ghost use Rattle.refusals.specs.Admitting.{told};
ghost use Rattle.field_elements.specs.Calls.{told_quadratic};
ghost use Rattle.find_solve.specs.Calls.{solved_values};
ghost use Rattle.find_affine.specs.Calls.{spanned_values};
ghost use Rattle.table_step.specs.Calls.{stepped_values};
ghost use Rattle.job_salvage.specs.Calls.{told_kept};
ghost use Rattle.claims.specs.Calls.{checked_values};
ghost use Rattle.locator.specs.Calls.{told_number, as_value, as_pair, as_found, as_space, as_stepped, as_corrected};
ghost use Rattle.locator.specs.Calls.{as_encoded, as_salvaged, as_written, as_claim, as_proved, outcome_number};

use crate::{
    LocatorClaim, LocatorCorrected, LocatorEncoded, LocatorFound, LocatorPair, LocatorProved,
    LocatorSalvaged, LocatorSpace, LocatorStepped, LocatorValue, LocatorWritten,
};
use field::solver::Quadratic;
use find_affine::Space;
use find_solve::Solved;
use job_salvage::Kept;
use refusals::Refusal;
use table_step::Stepped;

// Of an element call.
impl From<Result<u16, Refusal>> for LocatorValue {
    ghost from_gives = { λ r s. s ≡ as_value (told_number r) };

    fn from(r: Result<u16, Refusal>) -> LocatorValue {
        match r {
            Ok(value) => LocatorValue { outcome: 0, value },
            Err(k) => LocatorValue {
                outcome: u16::from(k),
                value: 0,
            },
        }
    }
}

// Of the quadratic.
impl From<Result<Quadratic, Refusal>> for LocatorPair {
    ghost from_gives = { λ r s. s ≡ as_pair (told_quadratic r) };

    fn from(r: Result<Quadratic, Refusal>) -> LocatorPair {
        match r {
            Ok(Quadratic::NoRoot) => LocatorPair {
                outcome: 0,
                count: 0,
                lower: 0,
                upper: 0,
                doubled: 0,
            },
            Ok(Quadratic::Double(x)) => LocatorPair {
                outcome: 0,
                count: 1,
                lower: x,
                upper: 0,
                doubled: 1,
            },
            Ok(Quadratic::Two(x, y)) => LocatorPair {
                outcome: 0,
                count: 2,
                lower: x,
                upper: y,
                doubled: 0,
            },
            Err(k) => LocatorPair {
                outcome: u16::from(k),
                count: 0,
                lower: 0,
                upper: 0,
                doubled: 0,
            },
        }
    }
}

// Of the whole call.
impl From<Result<Solved, Refusal>> for LocatorFound {
    ghost from_gives = { λ r s. s ≡ as_found (told solved_values r) };

    fn from(r: Result<Solved, Refusal>) -> LocatorFound {
        match r {
            Ok(solved) => LocatorFound {
                outcome: 0,
                count: solved.s,
                steps: solved.steps,
            },
            Err(k) => LocatorFound {
                outcome: u16::from(k),
                count: 0,
                steps: 0,
            },
        }
    }
}

// Of the search and of finish, which take no steps.
impl From<Result<u16, Refusal>> for LocatorFound {
    ghost from_gives = { λ r s. s ≡ as_found (told_number r) };

    fn from(r: Result<u16, Refusal>) -> LocatorFound {
        match r {
            Ok(count) => LocatorFound {
                outcome: 0,
                count,
                steps: 0,
            },
            Err(k) => LocatorFound {
                outcome: u16::from(k),
                count: 0,
                steps: 0,
            },
        }
    }
}

// Of the affine call.
impl From<Result<Option<Space>, Refusal>> for LocatorSpace {
    ghost from_gives = { λ r s. s ≡ as_space (told spanned_values r) };

    fn from(r: Result<Option<Space>, Refusal>) -> LocatorSpace {
        match r {
            Ok(None) => LocatorSpace {
                outcome: 0,
                count: 0,
                dimension: 0,
            },
            Ok(Some(space)) => LocatorSpace {
                outcome: 0,
                count: space.count,
                dimension: space.dimension,
            },
            Err(k) => LocatorSpace {
                outcome: u16::from(k),
                count: 0,
                dimension: 0,
            },
        }
    }
}

// Of a step.
impl From<Result<Stepped, Refusal>> for LocatorStepped {
    ghost from_gives = { λ r s. s ≡ as_stepped (told stepped_values r) };

    fn from(r: Result<Stepped, Refusal>) -> LocatorStepped {
        match r {
            Ok(Stepped::Taken) => LocatorStepped {
                outcome: 0,
                done: 0,
            },
            Ok(Stepped::Done) => LocatorStepped {
                outcome: 0,
                done: 1,
            },
            Err(k) => LocatorStepped {
                outcome: u16::from(k),
                done: 0,
            },
        }
    }
}

// Of the corrector.
impl From<Result<u16, Refusal>> for LocatorCorrected {
    ghost from_gives = { λ r s. s ≡ as_corrected (told_number r) };

    fn from(r: Result<u16, Refusal>) -> LocatorCorrected {
        match r {
            Ok(flips) => LocatorCorrected { outcome: 0, flips },
            Err(k) => LocatorCorrected {
                outcome: u16::from(k),
                flips: 0,
            },
        }
    }
}

// Of the encoder.
impl From<Result<u16, Refusal>> for LocatorEncoded {
    ghost from_gives = { λ r s. s ≡ as_encoded (told_number r) };

    fn from(r: Result<u16, Refusal>) -> LocatorEncoded {
        match r {
            Ok(checks) => LocatorEncoded { outcome: 0, checks },
            Err(k) => LocatorEncoded {
                outcome: u16::from(k),
                checks: 0,
            },
        }
    }
}

// Of salvage.
impl From<Result<Kept, Refusal>> for LocatorSalvaged {
    ghost from_gives = { λ r s. s ≡ as_salvaged (told told_kept r) };

    fn from(r: Result<Kept, Refusal>) -> LocatorSalvaged {
        match r {
            Ok(kept) => LocatorSalvaged {
                outcome: 0,
                length: kept.bytes,
            },
            Err(k) => LocatorSalvaged {
                outcome: u16::from(k),
                length: 0,
            },
        }
    }
}

// Of the writer.
impl From<Result<u16, Refusal>> for LocatorWritten {
    ghost from_gives = { λ r s. s ≡ as_written (told_number r) };

    fn from(r: Result<u16, Refusal>) -> LocatorWritten {
        match r {
            Ok(length) => LocatorWritten { outcome: 0, length },
            Err(k) => LocatorWritten {
                outcome: u16::from(k),
                length: 0,
            },
        }
    }
}

// Of the check of a claim.
impl From<Result<bool, Refusal>> for LocatorClaim {
    ghost from_gives = { λ r s. s ≡ as_claim (told checked_values r) };

    fn from(r: Result<bool, Refusal>) -> LocatorClaim {
        match r {
            Ok(accepted) => LocatorClaim {
                outcome: 0,
                accepted: u16::from(accepted),
            },
            Err(k) => LocatorClaim {
                outcome: u16::from(k),
                accepted: 0,
            },
        }
    }
}

// Of the making of a claim.
impl From<Result<u16, Refusal>> for LocatorProved {
    ghost from_gives = { λ r s. s ≡ as_proved (told_number r) };

    fn from(r: Result<u16, Refusal>) -> LocatorProved {
        match r {
            Ok(count) => LocatorProved { outcome: 0, count },
            Err(k) => LocatorProved {
                outcome: u16::from(k),
                count: 0,
            },
        }
    }
}

// The number of an outcome that has no value: 0, or a refusal's.
pub fn outcome_of(r: Result<(), Refusal>) -> u16
    ensures { result ≡ outcome_number r }
{
    match r {
        Ok(()) => 0,
        Err(k) => u16::from(k),
    }
}
