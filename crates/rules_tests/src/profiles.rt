//! What the plain profile becomes over several draws: published examples.
use loads::Kind;
use loads::profile::ProfileKind;
use maps::road::Road;
use std::test::Fail;

// A capacity, three draws, and the profile after them as need, low and high, where it can be driven.
type Case = (u32, [i32; 3], Option<(u32, u32, u32)>);

const CASES: [Case; 4] = [
    (10, [-2, 4, -1], Some((2, 1, 7))),
    (5, [-2, 4, -1], Some((2, 1, 2))),
    (3, [-2, 4, -1], None),
    (5, [1, -3, 1], Some((1, 2, 4))),
];

fn after(kind: &ProfileKind, draws: [i32; 3]) -> Option<(u32, u32, u32)> {
    let mut load = kind.plain();
    for draw in draws {
        let road = Road {
            head: 0,
            seconds: 1,
            draw,
        };
        load = kind.drive(load, road)?;
    }
    Some((load.need, load.low, load.high))
}

#[test]
fn profiles_follow_the_published_examples(rt: HostRuntime) -> Result<(), Fail> {
    for (capacity, draws, expected) in CASES {
        let kind = ProfileKind::new(capacity)?;
        assert_eq!(rt; after(&kind, draws), expected);
    }
    Ok(())
}
