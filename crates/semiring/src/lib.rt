// A kind of weight. Engines, solvers and sources above are one text for every kind, proved from
// this interface alone.
#![tactic(auto)]

ghost use Rattle.std.specs.Prelude.{◌≡◌, true, false, ◌≢◌};
ghost use Rattle.semiring.specs.Algebra.{Algebra, Under, IsIdentity};
ghost use Rattle.semiring.specs.Order.{OrderLaws};
ghost use Rattle.semiring.specs.Equation.{LeastSolution, StarLaws};
ghost use Rattle.semiring.specs.Sums.{total, LeastAbove};

// A commutative idempotent semiring in which every star is a finite sum of powers. No call
// refuses.
pub trait Semiring: Copy {
    // The operations, with the laws that every implementation proves.
    ghost algebra: { Algebra Self };

    // The sum of no weights.
    fn zero() -> Self
        ensures { result ≡ algebra.zero };

    // The product of no weights.
    fn one() -> Self
        ensures { result ≡ algebra.one };

    fn sum(self, other: Self) -> Self
        ensures { result ≡ algebra.plus self other };

    fn product(self, other: Self) -> Self
        ensures { result ≡ algebra.times self other };

    // The sum of all powers.
    fn star(self) -> Self
        ensures { result ≡ algebra.star self };

    // Yes exactly where the two weights are equal.
    fn same(self, other: Self) -> bool
        ensures yes { result ≡ true → self ≡ other }
        ensures no { result ≡ false → self ≢ other };
}

// A kind whose `==` says yes of a weight and itself, and of no two others.
pub trait Equality: Semiring + Eq {
    ghost equal: { IsIdentity Self.eq };
}

// Yes exactly where a lies under b.
pub fn lies_under<K: Semiring>(a: K, b: K) -> bool
    ensures yes { result ≡ true → Under K.algebra a b }
    ensures no { result ≡ false → Under K.algebra a b → ⊥ }
{
    a.sum(b).same(b)
}

// The sum of all weights of a slice, which is their least upper bound.
pub fn total<K: Semiring>(weights: &[K]) -> K
    ensures sum { result ≡ total K.algebra weights.now }
    ensures bound { LeastAbove K.algebra weights.now result }
{
    let mut all = K::zero();
    for weight in weights {
        all = all.sum(*weight);
    }
    all
}

// star(a) × b: b after a, any number of times.
fn starred<K: Semiring>(a: K, b: K) -> K
    ensures { result ≡ K.algebra.times (K.algebra.star a) b }
{
    a.star().product(b)
}

// The least solution of x = a x + b; with it, what the order is that it is least in, and what
// every star is good for.
pub fn solve_one<K: Semiring>(a: K, b: K) -> K
    ensures least { LeastSolution K.algebra a b result }
    ensures order { OrderLaws K.algebra }
    ensures star { StarLaws K.algebra a }
{
    starred(a, b)
}

#[cfg(test)]
mod tests;
mod truth;
