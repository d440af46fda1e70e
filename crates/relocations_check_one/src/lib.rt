// Checks 9 to 14 of one relocation, and the bytes that it leaves. Everything is read from the object as it was given. S comes
// from the arrays of the symbols' values.
#![tactic(auto)]

ghost use Rattle.std.specs.Prelude.{◌≡◌, true, false, not, cond, ℕ, ◌+◌, ◌-◌, ◌≤◌, ◌<◌, length, eqb};
ghost use Rattle.numbers_definitions.specs.Bytes.{le_at};
ghost use Rattle.numbers_definitions.specs.Whole.{signed};
ghost use Rattle.placing_symbols.specs.Arrays.{listed};
ghost use Rattle.relocations_decisions.specs.Decisions.{is_store, takes_pair, touched};
ghost use Rattle.relocations_rela.specs.Sites.{count, found};
ghost use Rattle.relocations_rela.specs.Requires.{SoundSite, There};
ghost use Rattle.relocations_rela.specs.Trails.{shares_by, shape_by};
ghost use Rattle.relocations_values.specs.Highs.{Listed};
ghost use Rattle.relocations_rules.specs.Rules.{is_resolved, is_one, boundary_well};
ghost use Rattle.relocations_check_one.specs.Outcomes.{distance_by, distance_if, align_finding, marker_finding, Answers, Partnered, Leaves, Comes, Onward};
ghost use Rattle.relocations_check_one.specs.Requires.{Storing, Listing, Relisted, Lookups, Read};
ghost use Rattle.relocations_check_one.specs.Unique.{alignment_unique};
ghost use Rattle.std.proofs.Props.{props};

use elf_read::{Relocation, class_of};
use numbers_arithmetic::{add64, difference};
use numbers_bytes::read_bytes;
use numbers_definitions::{Address, SectionOffset};
use placing_symbols::{Reason, Symbols, value_at};
use relocations_decisions::{stack_bits, takes_pair};
use relocations_patch::{apply_rule, symbol_sum};
use relocations_rela::shape::{Trail, advance, is_shape_well, shares_place};
use relocations_rela::sites::Site;
use relocations_rules::Finding;
use relocations_types::{Decision, Rule};
use relocations_values::highs::list_highs;
use relocations_values::pairs::pair_at;
use relocations_values::place_of;

// What a relocation that breaks no rule leaves: the bytes, as one number, and how many they are; what the previous non-marker of the
// next relocation left; and the trail of the next relocation. Only numbers of one size, so that no padding is copied.
#[derive(Clone, Copy)]
pub struct Step {
    pub word: u64,
    pub size: u64,
    pub last: u64,
    pub trail: Trail,
}

// An object, its symbol table, and the value of each of its symbols or why it has none.
#[derive(Clone, Copy)]
pub struct Source<'a> {
    pub object: &'a [u8],
    pub symbols: Symbols,
    pub values: &'a [u64],
    pub states: &'a [Result<(), Reason>],
    pub ghost lookups: { Lookups object.now symbols values.now states.now } by { Prim.hlevel (alignment_unique, props) },
}

// Check 14 of an ALIGN. Where the sum is 2^64 or more, it wraps; a power of two up to 2^64 divides it all the same or not.
fn is_on_boundary(start: Address, at: SectionOffset, addend: u64) -> bool
    requires { addend ≤ 4094 }
    ensures { result ≡ boundary_well Decision.Align (start.0 + at.0) (signed 64 addend) }
{
    let p = add64(start.0, at.0);
    add64(p, addend) % numbers_arithmetic::ceil_power(addend as u32 + 2) == 0
}

// The bytes that a relocation finds: what the previous non-marker left, if they share their place, otherwise the object's.
fn present(shares: bool, last: u64, found: u64) -> u64
    ensures { result ≡ cond shares last found }
{
    if shares { last } else { found }
}

// The bytes that a relocation touches, as the object has them.
fn found_bytes(object: &[u8], site: Site, rule: Rule, here: Relocation, j: usize) -> u64
    requires { Storing object.now site j rule here }
    ensures { result ≡ le_at rule.size (found object.now site) here.offset.0 }
{
    let bytes = elf_read::section_bytes(object, site.target);
    read_bytes(bytes, here.offset.0 as usize, rule.size as usize)
}

// How many high halves a site has. They are listed, unless they are listed already.
// `highs` and `known` are two parameters: where a struct holds the `&mut`, only its length is known once pair_at was lent it.
fn listed_highs(object: &[u8], site: Site, highs: &mut [u32], known: &mut Option<usize>) -> usize
    requires { SoundSite object.now site × Listing object.now site highs.old known.old }
    ensures { Listed object.now site highs.new result × Relisted object.now site highs.old highs.new known.new }
{
    match *known {
        Some(m) => m,
        None => {
            let m = list_highs(object, site, highs);
            *known = Some(m);
            m
        }
    }
}

// A marker that keeps its rules.
fn passed(trail: Trail, decision: Decision, here: Relocation, last: u64) -> Step
    requires { is_store decision ≡ false }
    ensures { (result.word ≡ 0) × Onward trail decision here last result.word result.size result.last result.trail }
{
    Step {
        word: 0,
        size: 0,
        last,
        trail: advance(trail, decision, 0, here),
    }
}

// An ALIGN.
fn step_align(site: Site, trail: Trail, here: Relocation, last: u64) -> Result<Step, Finding>
    ensures { Answers (align_finding trail site here) (λ step. (step.word ≡ 0) × Onward trail Decision.Align here last step.word step.size step.last step.trail) result }
{
    if !is_shape_well(trail, Decision::Align, false, here, site.target.size) {
        return Err(Finding::BadShape);
    }
    if !is_on_boundary(site.address, here.offset, here.addend) {
        return Err(Finding::OffBoundary);
    }
    Ok(passed(trail, Decision::Align, here, last))
}

// Any other marker.
fn step_marker(site: Site, trail: Trail, here: Relocation, last: u64) -> Result<Step, Finding>
    ensures { Answers (marker_finding trail site here) (λ step. (step.word ≡ 0) × Onward trail Decision.Marker here last step.word step.size step.last step.trail) result }
{
    if !is_shape_well(trail, Decision::Marker, false, here, site.target.size) {
        return Err(Finding::BadShape);
    }
    Ok(passed(trail, Decision::Marker, here, last))
}

impl Source<'_> {
    // T - P of relocation k. S + A is not reduced first: the difference is.
    fn distance_at(&self, site: Site, k: usize) -> u64
        requires { There self.now.object.now site k }
        ensures { result ≡ distance_by (listed self.now.values.now self.now.states.now) self.now.object.now site k }
    {
        let class = class_of(self.object);
        let high = elf_read::read_relocation(self.object, site.rela, k);
        let value = value_at(self.values, self.states, high.symbol);
        let x = symbol_sum(value, high.addend);
        let p = place_of(site, high);
        difference(class, x, p.0)
    }

    // T - P of the high half that a pair names, if it names one.
    fn high_half(&self, site: Site, pair: Option<usize>) -> Option<u64>
        requires { SoundSite self.now.object.now site × ((k : ℕ) → pair ≡ Some k → k < count self.now.object.now site) }
        ensures { result ≡ distance_if (listed self.now.values.now self.now.states.now) self.now.object.now site pair }
    {
        match pair {
            Some(k) => Some(self.distance_at(site, k)),
            None => None,
        }
    }

    // T - P of the high half that a PCREL_LO12 takes, whose symbol resolves; none if not exactly one high half is there. Refused is a
    // symbol that is not in the target.
    fn labelled(
        &self,
        site: Site,
        highs: &mut [u32],
        known: &mut Option<usize>,
        rule: Rule,
        here: Relocation,
        j: usize,
    ) -> Result<Option<u64>, Finding>
        requires { Storing self.now.object.now site j rule here × Listing self.now.object.now site highs.old known.old
            × (is_resolved (listed self.now.values.now self.now.states.now here.symbol) ≡ true) × (takes_pair rule.calculation ≡ true) }
        ensures { Partnered (listed self.now.values.now self.now.states.now) self.now.object.now site j rule.calculation result
            × Relisted self.now.object.now site highs.old highs.new known.new }
    {
        let outside = Finding::BadSymbol(Reason::OutsideTarget);
        let k = here.symbol as usize;
        if k == 0 {
            return Err(outside);
        }
        let symbol = elf_read::read_symbol(self.object, self.symbols.table, k);
        if symbol.section as u32 != site.index {
            return Err(outside);
        }
        let m = listed_highs(self.object, site, highs, known);
        let pair = pair_at(self.object, site, highs, m, symbol.value);
        Ok(self.high_half(site, pair))
    }

    // T - P of the high half that a relocation takes, whose symbol resolves; none if it takes one and not exactly one is there.
    fn take_partner(
        &self,
        site: Site,
        highs: &mut [u32],
        known: &mut Option<usize>,
        rule: Rule,
        here: Relocation,
        j: usize,
    ) -> Result<Option<u64>, Finding>
        requires { Storing self.now.object.now site j rule here × Listing self.now.object.now site highs.old known.old
            × (is_resolved (listed self.now.values.now self.now.states.now here.symbol) ≡ true) }
        ensures { Partnered (listed self.now.values.now self.now.states.now) self.now.object.now site j rule.calculation result
            × Relisted self.now.object.now site highs.old highs.new known.new }
    {
        let calculation = rule.calculation;
        if takes_pair(calculation) {
            return self.labelled(site, highs, known, rule, here, j);
        }
        Ok(Some(0))
    }

    // The bytes that a relocation leaves that stores and keeps check 9, where S is s.
    fn check_resolved(
        &self,
        site: Site,
        highs: &mut [u32],
        known: &mut Option<usize>,
        rule: Rule,
        here: Relocation,
        s: Address,
        shares: bool,
        last: u64,
        j: usize,
    ) -> Result<u64, Finding>
        requires { Storing self.now.object.now site j rule here × Listing self.now.object.now site highs.old known.old
            × (Ok s ≡ listed self.now.values.now self.now.states.now here.symbol) }
        ensures { Leaves (listed self.now.values.now self.now.states.now) self.now.object.now site j (cond shares last (le_at rule.size (found self.now.object.now site) here.offset.0)) result
            × Relisted self.now.object.now site highs.old highs.new known.new }
    {
        let value = Ok(s);
        let high = self.take_partner(site, highs, known, rule, here, j)?;
        let found = found_bytes(self.object, site, rule, here, j);
        let class = class_of(self.object);
        let applied = apply_rule(
            class,
            site.rvc,
            rule,
            found,
            present(shares, last, found),
            symbol_sum(value, here.addend),
            place_of(site, here),
            high.unwrap_or(0),
        );
        // The form is looked at before the pair: check 11 comes before check 12. The calculation needs the distance before both.
        if !applied.stands {
            return Err(Finding::BadForm);
        }
        if high.is_none() {
            return Err(Finding::NoPair);
        }
        if !applied.reaches {
            return Err(Finding::OutOfReach);
        }
        Ok(applied.word)
    }

    // The bytes that a relocation leaves that stores and keeps check 9.
    fn check_store(
        &self,
        site: Site,
        highs: &mut [u32],
        known: &mut Option<usize>,
        rule: Rule,
        here: Relocation,
        shares: bool,
        last: u64,
        j: usize,
    ) -> Result<u64, Finding>
        requires { Storing self.now.object.now site j rule here × Listing self.now.object.now site highs.old known.old }
        ensures { Leaves (listed self.now.values.now self.now.states.now) self.now.object.now site j (cond shares last (le_at rule.size (found self.now.object.now site) here.offset.0)) result
            × Relisted self.now.object.now site highs.old highs.new known.new }
    {
        let value = value_at(self.values, self.states, here.symbol);
        match value {
            Ok(s) => self.check_resolved(site, highs, known, rule, here, s, shares, last, j),
            Err(reason) => Err(Finding::BadSymbol(reason)),
        }
    }

    // A relocation that stores.
    fn step_store(
        &self,
        site: Site,
        highs: &mut [u32],
        known: &mut Option<usize>,
        trail: Trail,
        rule: Rule,
        here: Relocation,
        last: u64,
        j: usize,
    ) -> Result<Step, Finding>
        requires { Read self.now.object.now site j trail (Decision.Store rule) here × Listing self.now.object.now site highs.old known.old }
        ensures { Comes (listed self.now.values.now self.now.states.now) self.now.object.now site j
            (cond (shares_by trail (Decision.Store rule) here.offset.0) last (le_at rule.size (found self.now.object.now site) here.offset.0)) trail (Decision.Store rule) here last result
            × Relisted self.now.object.now site highs.old highs.new known.new }
    {
        let decision = Decision::Store(rule);
        let width = stack_bits(rule) as u64;
        let shares = shares_place(trail, width, here.offset);
        if !is_shape_well(trail, decision, shares, here, site.target.size) {
            return Err(Finding::BadShape);
        }
        let word = self.check_store(site, highs, known, rule, here, shares, last, j)?;
        Ok(Step {
            word,
            size: rule.size as u64,
            last: word,
            trail: advance(trail, decision, width, here),
        })
    }

    // Checks 9 to 14 of relocation j, which was read and decided. `trail` is that before it, and `last` is what the previous
    // non-marker left. `known` is how many high halves of the site `highs` begins with, once they are listed.
    pub fn check_one(
        &self,
        site: Site,
        highs: &mut [u32],
        known: &mut Option<usize>,
        trail: Trail,
        decision: Decision,
        here: Relocation,
        last: u64,
        j: usize,
    ) -> Result<Step, Finding>
        requires { Read self.now.object.now site j trail decision here × Listing self.now.object.now site highs.old known.old }
        ensures { Comes (listed self.now.values.now self.now.states.now) self.now.object.now site j
            (cond (shares_by trail decision here.offset.0) last (le_at (touched decision) (found self.now.object.now site) here.offset.0)) trail decision here last result
            × Relisted self.now.object.now site highs.old highs.new known.new }
    {
        match decision {
            Decision::Store(rule) => self.step_store(
                site, highs, known, trail, rule, here, last, j,
            ),
            Decision::Align => step_align(site, trail, here, last),
            Decision::Marker => step_marker(site, trail, here, last),
            Decision::Refused => Err(Finding::BadShape),
        }
    }
}
