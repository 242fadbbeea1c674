// The prefixes of a kind of address, and the family that they make.
ghost use Rattle.std.specs.Prelude.{◌≡◌, ◌-◌, ◌%◌, ◌^◌, ◌≤◌, ⊤};
ghost use Rattle.std.proofs.Common.{ap};
ghost use Rattle.std.proofs.Props.{props};
ghost use mathlib.Core.HLevel.{is_prop→PathP};

use crate::address::Address;
use crate::family::Family;
use crate::row::Row;
use crate::shift;
use std::alloc::AllocError;
use std::marker::PhantomData;

// A prefix: no bit of the address is set at or behind the length.
#[derive(PartialEq, Eq, Debug)]
pub struct Prefix<A: Address> {
    address: A,
    length: u8,
    ghost real: { A.real address } by { A.real_once address },
    ghost within: { length ≤ A.WIDTH },
    ghost clear: { A.value address % 2 ^ (A.WIDTH - length) ≡ 0 },
}

impl<A: Address> Clone for Prefix<A> {
    ghost is_clone = { λ p q. q ≡ p };

    ghost is_infallible = { λ _. ⊤ };

    fn clone(&self) -> Result<Prefix<A>, AllocError> {
        Ok(*self)
    }
}

impl<A: Address> Copy for Prefix<A> {}

// The family of the prefixes of `A`.
pub struct Of<A>(PhantomData<A>);

impl<A: Address> Family for Of<A> {
    type Address = A;

    type Prefix = Prefix<A>;

    const WIDTH: u8 = A::WIDTH;

    ghost WIDTH = { A.WIDTH };

    ghost form = { record { number = A.value; first = λ p. A.value p.address; length = λ p. p.length } };

    ghost real = { A.real };

    ghost rows = { A.rows };

    ghost narrow = { A.narrow };

    ghost valid = { λ p. record { within = p.within; small = A.below p.address p.real; clear = p.clear } };

    ghost same = { λ p q e.
        let a : p.address ≡ q.address = A.one p.address q.address p.real q.real (ap (λ b. b.first) e) in
        let l : p.length ≡ q.length = ap (λ b. b.length) e in
        λ i. record {
          address = a i;
          length = l i;
          real = is_prop→PathP (λ j. A.real (a j)) (λ j. A.real_once (a j)) p.real q.real i;
          within = is_prop→PathP (λ j. l j ≤ A.WIDTH) (λ j. Prim.hlevel props) p.within q.within i;
          clear = is_prop→PathP (λ j. A.value (a j) % 2 ^ (A.WIDTH - l j) ≡ 0) (λ j. Prim.hlevel props) p.clear q.clear i;
        } };

    ghost five = { A.five };

    ghost below = { A.below };

    ghost one = { A.one };

    fn number(address: A) -> u128 {
        address.number()
    }

    fn address(n: u128) -> A {
        A::from_number(n)
    }

    fn enclosing(address: A, length: u8) -> Prefix<A> {
        let length = length.min(A::WIDTH);
        let n = address.number();
        Prefix {
            address: A::from_number(n - shift::lower(n, A::WIDTH - length)),
            length,
        }
    }

    fn first(p: &Prefix<A>) -> A {
        p.address
    }

    fn length(p: &Prefix<A>) -> u8 {
        p.length
    }

    fn reserved<'a>() -> &'a [Row<A>]
    where
        A: 'a,
        ensures { result.now ≡ A.rows }
    {
        A::reserved()
    }
}
