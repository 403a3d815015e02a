//! How many records of an archive have a verdict.
ghost use Rattle.std.specs.Prelude.{◌≡◌, ℕ, ◌≤◌, [], ◌∷◌, ◌++◌, if◌then◌else◌, length, take, IfOk, OnErr, OnOk};
ghost use Rattle.warc_judged.specs.Counting.{is_verdict, verdict_at, verdict_tally};
ghost use Rattle.warc_judged.specs.Claims.{settled_claim, settled_claims};
ghost use Rattle.warc_judged.specs.Waiting.{IsSetAt, with_last};

use std::alloc::{AllocError, Allocator};
use std::marker::Model;
use warc_value::Verdict;

/// Whether a verdict is another.
pub fn is_verdict(one: Verdict, other: Verdict) -> bool
    ensures { result ≡ is_verdict one other }
{
    match one {
        Verdict::Good => matches!(other, Verdict::Good),
        Verdict::Bad => matches!(other, Verdict::Bad),
        Verdict::Unchecked => matches!(other, Verdict::Unchecked),
    }
}

/// One where a test holds, and else nothing.
pub fn one_if(test: bool) -> usize
    ensures value { result ≡ (if test then 1 else 0) }
    ensures most { result ≤ 1 }
{
    if test { 1 } else { 0 }
}

/// The verdict by the digest that is wanted, by the verdict on a block that has it and by the one that is stated.
fn settled_claim(claim: Verdict, stated: Verdict) -> Verdict
    ensures { result ≡ settled_claim claim stated }
{
    match claim {
        Verdict::Good => stated,
        Verdict::Bad | Verdict::Unchecked => claim,
    }
}

/// Settles each claim that has a stated verdict.
fn settle_claims(claims: &mut [Verdict], stated: &[Verdict])
    ensures { claims.new ≡ settled_claims claims.old stated.now }
{
    'settling: for i in 0..claims.len().min(stated.len()) {
        claims[i] = settled_claim(claims[i], stated[i]);
    }
}

/// How the blocks of records compare with the digests that their heads ask for, in the order of the records.
#[derive(Drop)]
pub struct Verdicts<A: Allocator> {
    list: Vec<Verdict, A>,
}

impl<A: Allocator> Model for Verdicts<A> {
    ghost use Rattle.std.specs.Prelude.{List};
    ghost use Rattle.warc_value.specs.declared.hash.Verdict.{Verdict as Found};

    ghost Value = { List Found };

    ghost view = { λ v. v.list.items };
}

impl<A: Allocator> Verdicts<A> {
    /// Of no records.
    pub fn new(alloc: A) -> Verdicts<A>
        ensures { result ≡ [] }
    {
        Verdicts {
            list: Vec::new(alloc),
        }
    }

    /// Of this number of records, of none of which anything is known.
    #[tactic(auto, using(crate::proofs::VerdictLemmas::none_said))]
    pub fn unknown(alloc: A, count: usize) -> Result<Verdicts<A>, AllocError>
        ensures { IfOk result (λ verdicts. (i : ℕ) → verdict_at verdicts i ≡ Verdict.Unchecked) }
    {
        let list = vec![in alloc; Verdict::Unchecked; count]?;
        Ok(Verdicts { list })
    }

    /// Sets the verdict at a position, if there is one.
    #[tactic(auto, using(crate::proofs::VerdictLemmas::set_one))]
    pub fn set(&mut self, position: usize, verdict: Verdict)
        ensures { IsSetAt self.old self.new position verdict }
    {
        if position < self.list.len() {
            self.list[position] = verdict;
        }
    }

    /// Adds the next verdict. If an allocation fails, none is added.
    pub fn push(&mut self, verdict: Verdict) -> Result<(), AllocError>
        ensures ok { OnOk result (self.new ≡ self.old ++ verdict ∷ []) }
        ensures err { OnErr result (self.new ≡ self.old) }
    {
        self.list.push(verdict)?;
        Ok(())
    }

    /// Writes these over the last verdicts.
    pub fn replace_last(&mut self, verdicts: &[Verdict])
        requires { length verdicts.now ≤ length self.old }
        ensures { self.new ≡ with_last self.old verdicts.now }
    {
        let first = self.list.len() - verdicts.len();
        self.list[first..].copy_from_slice(verdicts);
    }

    /// Keeps the first `count` verdicts.
    pub fn truncate(&mut self, count: usize)
        ensures { self.new ≡ take count self.old }
    {
        self.list.truncate(count);
    }

    /// How many there are.
    pub fn len(&self) -> usize
        ensures { result ≡ length self.now }
    {
        self.list.len()
    }

    /// The verdict at a position.
    pub fn at(&self, position: usize) -> Verdict
        ensures { result ≡ verdict_at self.now position }
    {
        match self.list.get(position) {
            Some(verdict) => *verdict,
            None => Verdict::Unchecked,
        }
    }

    /// The verdicts.
    pub fn as_slice(&self) -> &[Verdict]
        ensures { result.now ≡ self.now }
    {
        self.list.as_slice()
    }

    /// Settles each claim by the verdict that is stated. It doesn't allocate.
    pub fn settle_claims(&mut self, stated: &Verdicts<A>)
        ensures { self.new ≡ settled_claims self.old stated.now }
    {
        settle_claims(&mut self.list, stated.as_slice());
    }

    /// How many verdicts are this one.
    pub fn count(&self, verdict: Verdict) -> usize
        ensures { result ≡ verdict_tally verdict self.now }
    {
        let mut count = 0usize;
        'counting: for position in 0..self.list.len() {
            count += one_if(is_verdict(verdict, self.list[position]));
        }
        count
    }
}
