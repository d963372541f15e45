// The C face (docs/RULES.md section 9): the element calls, the whole call, the plain search, the affine call, begin,
// step and finish, the block corrector and encoder, salvage, the writer, the check and the making of a claim, as
// include/locator.h declares them. A slice is a pointer, then a count. Each call answers every input; it neither
// allocates nor calls out, and keeps no state.
#![tactic(auto)]

ghost use Rattle.locator.specs.Calls.{ProductAs, InverseAs, PositionAs, QuadraticAs};
ghost use Rattle.locator.specs.Calls.{SolvesAs, SearchesAs, SpansAs, BeginsAs, StepsAs, FinishesAs, CorrectsAs};
ghost use Rattle.claim_rules.specs.Claims.{claim_of};
ghost use Rattle.locator.specs.Calls.{EncodesAs, SalvagesAs, WritesAs, ChecksAs, ProvesAs};

use claims::Claim;
use field_elements::Element;

mod answers; // each struct out of what its call answers

// An element call's answer.
#[repr(C)]
#[derive(Clone, Copy)]
pub struct LocatorValue {
    pub outcome: u16,
    pub value: u16,
}

// The quadratic's answer: how many roots, the lower first, and 1 where the one root is double.
#[repr(C)]
#[derive(Clone, Copy)]
pub struct LocatorPair {
    pub outcome: u16,
    pub count: u16,
    pub lower: u16,
    pub upper: u16,
    pub doubled: u16,
}

// What was found: how many roots, and in how many steps.
#[repr(C)]
#[derive(Clone, Copy)]
pub struct LocatorFound {
    pub outcome: u16,
    pub count: u16,
    pub steps: u16,
}

// The roots of an affine polynomial: how many, and the dimension.
#[repr(C)]
#[derive(Clone, Copy)]
pub struct LocatorSpace {
    pub outcome: u16,
    pub count: u16,
    pub dimension: u16,
}

// A step's answer: 1 where there was nothing to split.
#[repr(C)]
#[derive(Clone, Copy)]
pub struct LocatorStepped {
    pub outcome: u16,
    pub done: u16,
}

// The corrector's answer: how many bits were flipped.
#[repr(C)]
#[derive(Clone, Copy)]
pub struct LocatorCorrected {
    pub outcome: u16,
    pub flips: u16,
}

// The encoder's answer: how many check bits the word has.
#[repr(C)]
#[derive(Clone, Copy)]
pub struct LocatorEncoded {
    pub outcome: u16,
    pub checks: u16,
}

// What salvage kept: how many bytes.
#[repr(C)]
#[derive(Clone, Copy)]
pub struct LocatorSalvaged {
    pub outcome: u16,
    pub length: usize,
}

// What the writer wrote: how many bytes.
#[repr(C)]
#[derive(Clone, Copy)]
pub struct LocatorWritten {
    pub outcome: u16,
    pub length: u16,
}

// The check's answer: 1 where the claim is accepted, 0 for a plain "no".
#[repr(C)]
#[derive(Clone, Copy)]
pub struct LocatorClaim {
    pub outcome: u16,
    pub accepted: u16,
}

// What was made: how many roots the claim has.
#[repr(C)]
#[derive(Clone, Copy)]
pub struct LocatorProved {
    pub outcome: u16,
    pub count: u16,
}

// The product of a and b in the field of degree m.
#[unsafe(no_mangle)]
pub extern "C" fn locator_product(m: u16, a: Element, b: Element) -> LocatorValue
    ensures { ProductAs m a b result }
{
    field_elements::product(m, a, b).into()
}

// The inverse of a in the field of degree m.
#[unsafe(no_mangle)]
pub extern "C" fn locator_inverse(m: u16, a: Element) -> LocatorValue
    ensures { InverseAs m a result }
{
    field_elements::inverse(m, a).into()
}

// The position of a root r in the field of degree m: where the bad bit stands, under a convention.
#[unsafe(no_mangle)]
pub extern "C" fn locator_position(m: u16, r: Element, convention: u16) -> LocatorValue
    ensures { PositionAs m r convention result }
{
    field_elements::position(m, r, convention).into()
}

// The roots of z^2 + az + b in the field of degree m.
#[unsafe(no_mangle)]
pub extern "C" fn locator_quadratic(m: u16, a: Element, b: Element) -> LocatorPair
    ensures { QuadraticAs m a b result }
{
    field_elements::quadratic(m, a, b).into()
}

// The whole call.
#[unsafe(no_mangle)]
pub extern "C" fn locator_solve(
    m: u16,
    coeffs: &[Element],
    cutoff: u16,
    roots: &mut [Element],
    mults: &mut [u16],
) -> LocatorFound
    ensures { SolvesAs m cutoff coeffs.now roots.old mults.old
        result roots.new mults.new }
{
    find_solve::solve(m, coeffs, cutoff, roots, mults).into()
}

// The plain search.
#[unsafe(no_mangle)]
pub extern "C" fn locator_search(
    m: u16,
    coeffs: &[Element],
    roots: &mut [Element],
    mults: &mut [u16],
) -> LocatorFound
    ensures { SearchesAs m coeffs.now roots.old mults.old
        result roots.new mults.new }
{
    find_search::search(m, coeffs, roots, mults).into()
}

// The roots of an affine polynomial: 0 of them where there is none.
#[unsafe(no_mangle)]
pub extern "C" fn locator_affine(
    m: u16,
    coeffs: &[Element],
    constant: Element,
    roots: &mut [Element],
) -> LocatorSpace
    ensures { SpansAs m coeffs.now constant roots.old result roots.new }
{
    find_affine::affine(m, coeffs, constant, roots).into()
}

// Begins a table: its number alone.
#[unsafe(no_mangle)]
pub extern "C" fn locator_begin(m: u16, coeffs: &[Element], cutoff: u16, table: &mut [u16]) -> u16
    ensures { BeginsAs m cutoff coeffs.now table.old result table.new }
{
    answers::outcome_of(table_begin::begin(m, coeffs, cutoff, table))
}

// One step of a table.
#[unsafe(no_mangle)]
pub extern "C" fn locator_step(table: &mut [u16]) -> LocatorStepped
    ensures { StepsAs table.old result table.new }
{
    table_step::step(table).into()
}

// Finishes a table that is done.
#[unsafe(no_mangle)]
pub extern "C" fn locator_finish(table: &[u16], roots: &mut [Element]) -> LocatorFound
    ensures { FinishesAs table.now roots.old result roots.new }
{
    table_finish::finish(table, roots).into()
}

// The block corrector.
#[unsafe(no_mangle)]
pub extern "C" fn locator_correct(strength: u16, word: &mut [u8]) -> LocatorCorrected
    ensures { CorrectsAs strength word.old result word.new }
{
    corrector::correct(strength, word).into()
}

// The block encoder.
#[unsafe(no_mangle)]
pub extern "C" fn locator_encode(strength: u16, word: &mut [u8]) -> LocatorEncoded
    ensures { EncodesAs strength word.old result word.new }
{
    corrector_encoder::encode(strength, word).into()
}

// Salvage of a damaged job file.
#[unsafe(no_mangle)]
pub extern "C" fn locator_salvage(file: &[u8], kept: &mut [u8]) -> LocatorSalvaged
    ensures { SalvagesAs file.now kept.old result kept.new }
{
    job_salvage::salvage(file, kept).into()
}

// The record of the polynomial that has given roots.
#[unsafe(no_mangle)]
pub extern "C" fn locator_write(
    m: u16,
    cutoff: u16,
    roots: &[Element],
    room: &mut [u8],
) -> LocatorWritten
    ensures { WritesAs m cutoff roots.now room.old result room.new }
{
    job_writer::write(m, cutoff, roots, room).into()
}

// The check of a claim: the roots of f with their multiplicities, a cofactor h, and u and v.
#[unsafe(no_mangle)]
pub extern "C" fn locator_check(
    m: u16,
    f: &[Element],
    roots: &[Element],
    mults: &[u16],
    h: &[Element],
    u: &[Element],
    v: &[Element],
) -> LocatorClaim
    ensures { ChecksAs m f.now (claim_of roots.now mults.now
        h.now u.now v.now) result }
{
    let claim = Claim {
        roots,
        mults,
        h,
        u,
        v,
    };
    claims::check(m, f, &claim).into()
}

// The making of a claim about f: fills its roots, their multiplicities, the cofactor h, and u and v.
#[unsafe(no_mangle)]
pub extern "C" fn locator_prove(
    m: u16,
    f: &[Element],
    roots: &mut [Element],
    mults: &mut [u16],
    h: &mut [Element],
    u: &mut [Element],
    v: &mut [Element],
) -> LocatorProved
    ensures { ProvesAs m f.now
        (claim_of roots.old mults.old h.old u.old v.old) result
        (claim_of roots.new mults.new h.new u.new v.new) }
{
    claim_maker::prove(m, f, roots, mults, h, u, v).into()
}
