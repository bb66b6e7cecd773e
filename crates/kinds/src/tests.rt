// Both sides of every bound.
use crate::weights::{Disc, Least, Light, Most};
use script::branch::Branch;
use script::weighing::Weighing;
use semiring::Semiring;
use std::test::Fail;

fn branch(seconds: u16, turn: u8) -> Branch {
    Branch {
        routine: 0,
        count: 0,
        calls: [0; 4],
        seconds,
        light: seconds,
        turn,
    }
}

#[test]
fn least_ends_below_65535(rt: HostRuntime) {
    let long = Least::after(65000);
    assert_eq!(rt; long.product(Least::after(534)), Least::after(65534));
    assert_eq!(rt; long.product(Least::after(535)), Least::zero());
    assert_ne!(rt; Least::after(65534), Least::zero());
    assert_eq!(rt; Least::after(65535), Least::zero());
    assert_eq!(rt; long.sum(Least::zero()), long);
    assert_eq!(rt; long.star(), Least::one());
}

#[test]
fn most_is_held_at_65535(rt: HostRuntime) {
    let long = Most::after(65000);
    assert_eq!(rt; long.product(Most::after(534)), Most::after(65534));
    assert_eq!(rt; long.product(Most::after(600)), Most::after(65535));
    assert_eq!(rt; long.product(Most::zero()), Most::zero());
    assert_eq!(rt; Most::after(0).star(), Most::one());
    assert_eq!(rt; Most::after(1).star(), Most::after(65535));
    assert_eq!(rt; Most::zero().star(), Most::one());
}

#[test]
fn light_between_its_ends(rt: HostRuntime) {
    assert_eq!(rt; Light::zero().sum(Light::of(1)), Light::of(1));
    assert_eq!(rt; Light::one().product(Light::of(65534)), Light::of(65534));
    assert_eq!(rt; Light::of(0).star(), Light::one());
}

#[test]
fn disc_goes_round(rt: HostRuntime) {
    assert_eq!(rt; Disc::only(23).product(Disc::only(1)), Disc::one());
    assert_eq!(rt; Disc::only(22).product(Disc::only(1)), Disc::only(23));
    assert_eq!(rt; Disc::only(24), Disc::zero());
    assert_eq!(rt; Disc::zero().divisor(), 24);
    assert_eq!(rt; Disc::only(23).divisor(), 1);
    assert_eq!(rt; Disc::zero().star().bits, 0x000001);
    assert_eq!(rt; Disc::only(9).star().bits, 0x249249);
    assert_eq!(rt; Disc::only(8).sum(Disc::only(12)).star().bits, 0x111111);
    assert_eq!(rt;
        Disc::only(9).star().digits(),
        ['2', '4', '9', '2', '4', '9']
    );
}

#[test]
fn branches_at_the_ends(rt: HostRuntime) {
    let (inside, outside) = (branch(65534, 23), branch(65535, 24));
    assert_eq!(rt; Least::weigh(&inside), Least::after(65534));
    assert_eq!(rt; Least::weigh(&outside), Least::zero());
    assert_eq!(rt; Most::weigh(&outside), Most::after(65535));
    assert_eq!(rt; Light::weigh(&outside), Light::one());
    assert_eq!(rt; Disc::weigh(&inside), Disc::only(23));
    assert_eq!(rt; Disc::weigh(&outside), Disc::zero());
}

#[test]
fn prints(rt: HostRuntime) -> Result<(), Fail> {
    let heap = rt.alloc();
    assert_eq!(rt;
        format!(in heap; "{} {}", Least::after(65534), Least::zero())?.as_str(),
        "65534 never"
    );
    assert_eq!(rt;
        format!(in heap; "{} {}", Most::after(65534), Most::after(65535))?.as_str(),
        "65534 unlimited"
    );
    assert_eq!(rt;
        format!(in heap; "{} {}", Most::zero(), Light::one())?.as_str(),
        "never 65535"
    );
    assert_eq!(rt;
        format!(in heap; "{} {}", Disc::only(9).star(), Disc::one())?.as_str(),
        "249249 000001"
    );
    Ok(())
}
