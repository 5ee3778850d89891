// Second pairs of systems.
use crate::drawn::payload;
use crate::spare::Spare;
use line::depth::Depth;
use onex::levels::Levels;
use onex::one_x::OneX;
use std::alloc::AllocError;
use std::marker::PhantomData;
use std::process::Abort;
use std::test::Fail;
use system::first_else::FirstElse;
use system::joins::Joins;
use system::round_trip::round_trip;
use system::system::LineSystem;
use system::yields::Yields;
use twox::two_x::TwoX;

// A second pair, of any two systems of which second ones can be made.
pub(crate) fn again<A: Yields<B> + Clone, B: LineSystem + Clone>(
    pair: &FirstElse<A, B>,
) -> Result<FirstElse<A, B>, AllocError> {
    pair.clone()
}

// 1X, else 2X at ten bits, of which the clones have other depths,
fn marked_pair<M>(
    one: Depth,
    two: Depth,
) -> Result<FirstElse<Spare<OneX, M>, Spare<TwoX, M>>, Fail> {
    let first = Spare {
        now: OneX::new(Levels::usual(Depth::Ten)),
        next: OneX::new(Levels::usual(one)),
        mark: PhantomData,
    };
    let second = Spare {
        now: TwoX::new(Depth::Ten),
        next: TwoX::new(two),
        mark: PhantomData,
    };
    Ok(first.join(second)?)
}

// and of systems that are no copies.
fn pair_with(one: Depth, two: Depth) -> Result<FirstElse<Spare<OneX>, Spare<TwoX>>, Fail> {
    marked_pair(one, two)
}

#[test]
fn a_pair_of_systems_that_are_no_copies(rt: HostRuntime) -> Result<(), Fail> {
    let pair = again(&pair_with(Depth::Eight, Depth::Eight)?)?;
    assert_eq!(rt; pair.first().now, OneX::new(Levels::usual(Depth::Eight)));
    assert_eq!(rt; pair.second().now, TwoX::new(Depth::Eight));
    let bytes = payload();
    let mut line = [0u16; 240];
    for length in [30usize, 60] {
        let mut back = [0u8; 60];
        let size = length.min(60);
        assert_eq!(rt;
            round_trip(&pair, &bytes[..size], &mut line, &mut back),
            Ok(Some(size))
        );
        assert_eq!(rt; back[..size], bytes[..size]);
    }
    Ok(())
}

#[test]
fn clones_of_two_depths_are_no_pair(rt: HostRuntime) -> Result<(), Fail> {
    for (one, two) in [(Depth::Ten, Depth::Eight), (Depth::Eight, Depth::Ten)] {
        assert!(rt; again(&pair_with(one, two)?).is_err());
    }
    Ok(())
}

// Whatever the clones of its systems are, and where they are no pair, a copy of a pair is the pair.
#[test]
fn a_pair_that_is_copied(rt: HostRuntime) -> Result<(), Fail> {
    for next in [Depth::Eight, Depth::Ten] {
        let pair = marked_pair::<()>(Depth::Eight, next)?;
        assert_eq!(rt; again(&pair).is_ok(), next == Depth::Eight);
        let same = pair.copied();
        assert_eq!(rt; same.first().now, OneX::new(Levels::usual(Depth::Ten)));
        assert_eq!(rt; same.first().next, OneX::new(Levels::usual(Depth::Eight)));
        assert_eq!(rt; same.second().now, TwoX::new(Depth::Ten));
        assert_eq!(rt; same.second().next, TwoX::new(next));
    }
    Ok(())
}
