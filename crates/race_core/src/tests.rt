// Worked lists of events, each with the state that it reaches, counted by hand.
ghost use Rattle.std.specs.Prelude.{◌≡◌};
ghost use Rattle.race_core.specs.State.{HasSizes};

use super::*;
use std::process::Abort;
use std::test::Fail;

// What is read of a core with two strata and two seats.
#[derive(Drop)]
struct Wanted<'a> {
    count: u64,
    words: [u32; 2],
    drawn: [&'a [u32]; 2],
    won: [&'a [u32]; 2],
    spent: [bool; 2],
    joined: &'a [(u32, u32)],
}

fn assert_state(rt: &impl Abort, core: &Core, wanted: &Wanted<'_>)
    requires { HasSizes 2 2 core.now }
{
    assert_eq!(rt; core.count(), wanted.count);
    assert_eq!(rt; [core.word(1), core.word(2)], wanted.words);
    assert_eq!(rt; core.drawn(1), wanted.drawn[0]);
    assert_eq!(rt; core.drawn(2), wanted.drawn[1]);
    assert_eq!(rt; core.won(1), wanted.won[0]);
    assert_eq!(rt; core.won(2), wanted.won[1]);
    assert_eq!(rt; [core.is_spent(1), core.is_spent(2)], wanted.spent);
    assert_eq!(rt; core.joined(), wanted.joined);
}

#[test]
fn lists_reach_their_states(rt: HostRuntime) -> Result<(), Fail> {
    let draw = Event::Draw { seat: 1 };
    let win = Event::Win {
        seat: 1,
        stratum: 2,
    };
    let join = Event::Join {
        seat: 1,
        stratum: 2,
    };
    let lose = Event::Lose {
        seat: 2,
        stratum: 2,
        by: 1,
    };
    let none: &[u32] = &[];
    let at_start = Wanted {
        count: 0,
        words: [0, 0],
        drawn: [none, none],
        won: [none, none],
        spent: [false, false],
        joined: &[],
    };
    let joined = Wanted {
        count: 1,
        words: [0, 1],
        drawn: [&[0], none],
        won: [&[2], none],
        spent: [false, false],
        joined: &[(2, 1)],
    };
    let spent = Wanted {
        count: 5,
        words: [0, 0],
        drawn: [&[0, 1, 2, 3], none],
        won: [none, none],
        spent: [true, false],
        joined: &[],
    };
    let shared = Wanted {
        count: 6,
        words: [2, 1],
        drawn: [&[0, 2], &[1, 3]],
        won: [&[2], &[1]],
        spent: [true, true],
        joined: &[(1, 2)],
    };
    let other = Event::Draw { seat: 2 };
    let rows: [(&[Event], &Wanted<'_>); 6] = [
        (&[], &at_start),
        (
            &[Event::LookOpen {
                seat: 2,
                stratum: 1,
            }],
            &at_start,
        ),
        (&[draw, win, join], &joined),
        (
            &[
                draw,
                win,
                join,
                lose,
                Event::LookTaken {
                    seat: 2,
                    stratum: 2,
                    by: 1,
                },
            ],
            &joined,
        ),
        (&[draw, draw, draw, draw, draw], &spent),
        (
            &[
                draw,
                other,
                draw,
                win,
                other,
                Event::Win {
                    seat: 2,
                    stratum: 1,
                },
                draw,
                Event::Join {
                    seat: 2,
                    stratum: 1,
                },
                other,
            ],
            &shared,
        ),
    ];
    for (events, wanted) in rows {
        let Some(core) = replay(rt.alloc(), 2, 2, events)? else {
            return Err("an allowed list is refused".into());
        };
        assert_state(&rt, &core, wanted);
    }
    Ok(())
}

#[test]
fn lists_are_refused(rt: HostRuntime) -> Result<(), Fail> {
    let draw = Event::Draw { seat: 1 };
    let win = Event::Win {
        seat: 1,
        stratum: 2,
    };
    let join = Event::Join {
        seat: 1,
        stratum: 2,
    };
    let rows: [&[Event]; 16] = [
        &[draw, win, join, join],
        &[
            draw,
            win,
            Event::Win {
                seat: 2,
                stratum: 2,
            },
        ],
        &[draw, draw, draw, draw, draw, draw],
        &[Event::Draw { seat: 0 }],
        &[Event::Draw { seat: 3 }],
        &[Event::LookOpen {
            seat: 1,
            stratum: 0,
        }],
        &[Event::LookOpen {
            seat: 1,
            stratum: 3,
        }],
        &[Event::LookOpen {
            seat: 3,
            stratum: 1,
        }],
        &[
            win,
            Event::LookOpen {
                seat: 2,
                stratum: 2,
            },
        ],
        &[Event::LookTaken {
            seat: 1,
            stratum: 1,
            by: 0,
        }],
        &[
            win,
            Event::LookTaken {
                seat: 1,
                stratum: 2,
                by: 2,
            },
        ],
        &[Event::Lose {
            seat: 1,
            stratum: 1,
            by: 0,
        }],
        &[
            win,
            Event::Lose {
                seat: 2,
                stratum: 2,
                by: 2,
            },
        ],
        &[join],
        &[
            win,
            Event::Join {
                seat: 2,
                stratum: 2,
            },
        ],
        &[Event::Win {
            seat: 0,
            stratum: 1,
        }],
    ];
    for events in rows {
        assert!(rt; replay(rt.alloc(), 2, 2, events)?.is_none());
    }
    Ok(())
}

#[test]
fn steps_reach_their_states(rt: HostRuntime) -> Result<(), Fail> {
    let alloc = rt.alloc();
    let none: &[u32] = &[];
    let first = start(alloc, 2, 2)?;
    let Some(second) = step(alloc, &first, Event::Draw { seat: 2 })? else {
        return Err("a draw is refused".into());
    };
    let Some(third) = step(
        alloc,
        &second,
        Event::Win {
            seat: 2,
            stratum: 1,
        },
    )?
    else {
        return Err("a win is refused".into());
    };
    assert!(rt;
        step(
            alloc,
            &third,
            Event::Join {
                seat: 1,
                stratum: 1
            }
        )?
        .is_none()
    );
    let drawn = Wanted {
        count: 1,
        words: [0, 0],
        drawn: [none, &[0]],
        won: [none, none],
        spent: [false, false],
        joined: &[],
    };
    assert_state(&rt, &second, &drawn);
    let won = Wanted {
        count: 1,
        words: [2, 0],
        drawn: [none, &[0]],
        won: [none, &[1]],
        spent: [false, false],
        joined: &[],
    };
    assert_state(&rt, &third, &won);
    let Some(empty) = replay(alloc, 0, 1, &[Event::Draw { seat: 1 }])? else {
        return Err("a draw is refused where there is no stratum".into());
    };
    assert!(rt; empty.is_spent(1));
    assert_eq!(rt; empty.drawn(1), none);
    Ok(())
}
