// Worked races, with the tickets and winners counted by hand.
ghost use Rattle.std.specs.Prelude.{◌≡◌, ◌≤◌, ◌<◌, false};
ghost use Rattle.race_table.specs.Views.{was_told};
ghost use Rattle.race_table.specs.Passes.{view_of, BelongsTo};

use super::*;
use std::test::Fail;
use std::thread::join;

#[test]
fn one_caller_races_two_seats(rt: HostRuntime) -> Result<(), Fail> {
    let (table, mut first) = RaceTable::new(rt.alloc(), 1, 2)?;
    assert_eq!(rt; table.strata(), 1);
    let mut second = first.split(&table);
    assert_eq!(rt;
        [
            first.number(),
            first.parts(),
            second.number(),
            second.parts()
        ],
        [1, 1, 2, 1]
    );
    let Ticket::Number(0) = table.draw(&mut first) else {
        return Err("the first ticket is not 0".into());
    };
    let Ticket::Number(1) = table.draw(&mut second) else {
        return Err("the second ticket is not 1".into());
    };
    let Look::Open(look) = table.look(&mut first, 1) else {
        return Err("a stratum is taken before a win".into());
    };
    assert_eq!(rt; look.stratum(), 1);
    match table.win(&mut second, 1) {
        Win::Won(won) => {
            assert_eq!(rt; (won.stratum(), won.seat()), (1, 2));
            assert_eq!(rt; won.spend(), (1, 2));
        }
        Win::Lost(_) => return Err("an open stratum is lost".into()),
    }
    let Look::Taken(2) = table.look(&mut first, 1) else {
        return Err("a look does not find the winner".into());
    };
    match table.win(&mut first, 1) {
        Win::Won(won) => {
            won.spend();
            return Err("a stratum is won twice".into());
        }
        Win::Lost(seat) => assert_eq!(rt; seat, 2),
    }
    let Ticket::Spent = table.draw(&mut first) else {
        return Err("a third ticket is drawn".into());
    };
    let Ticket::Spent = table.draw(&mut second) else {
        return Err("a fourth ticket is drawn".into());
    };
    assert!(rt; first.is_spent());
    first.unite(&table, second);
    let mut winners = [0];
    let total = table.close(first, &mut winners);
    assert_eq!(rt; (total, winners), (4, [2]));
    Ok(())
}

// What a pass drew until it was told that the tickets are spent.
struct Drawn {
    pass: Pass,
    tickets: [bool; 512],
    count: u32,
}

fn draw_all(table: &RaceTable, mut pass: Pass) -> Drawn
    requires table { BelongsTo table.now pass }
    requires fresh { was_told (view_of pass) ≡ false }
    ensures table { BelongsTo table.now result.pass }
    ensures range { ((view_of result.pass).first ≡ (view_of pass).first) × ((view_of result.pass).parts ≡ (view_of pass).parts) }
    ensures count { result.count ≤ 1000 }
{
    let mut tickets = [false; 512];
    let mut count = 0;
    for _turn in 0..1000u32 {
        match table.draw(&mut pass) {
            Ticket::Number(ticket) => {
                if ticket < 512 {
                    tickets[ticket as usize] = true;
                    count += 1;
                }
            }
            Ticket::Spent => break,
        }
    }
    Drawn {
        pass,
        tickets,
        count,
    }
}

#[test]
fn two_threads_draw_each_ticket(rt: HostRuntime) -> Result<(), Fail> {
    let (table, mut first) = RaceTable::new(rt.alloc(), 256, 2)?;
    let second = first.split(&table);
    let shared = &table;
    let (left, right) = join(
        &rt,
        move || -> Drawn
            requires { BelongsTo shared.now first × (was_told (view_of first) ≡ false) × ((view_of first).first ≡ 1) × ((view_of first).parts ≡ 1) }
            ensures { BelongsTo shared.entry.now result.pass × ((view_of result.pass).first ≡ 1) × ((view_of result.pass).parts ≡ 1) × (result.count ≤ 1000) }
        { draw_all(shared, first) },
        move || -> Drawn
            requires { BelongsTo shared.now second × (was_told (view_of second) ≡ false) × ((view_of second).first ≡ 2) × ((view_of second).parts ≡ 1) }
            ensures { BelongsTo shared.entry.now result.pass × ((view_of result.pass).first ≡ 2) × ((view_of result.pass).parts ≡ 1) × (result.count ≤ 1000) }
        { draw_all(shared, second) },
    );
    let Drawn {
        pass: mut whole,
        tickets: by_first,
        count: first_count,
    } = left;
    let Drawn {
        pass: other,
        tickets: by_second,
        count: second_count,
    } = right;
    assert_eq!(rt; first_count + second_count, 512);
    for ticket in 0..512 {
        assert!(rt; by_first[ticket] != by_second[ticket]);
    }
    whole.unite(&table, other);
    let mut winners = [7; 256];
    let total = table.close(whole, &mut winners);
    assert_eq!(rt; total, 514);
    for winner in winners {
        assert_eq!(rt; winner, 0);
    }
    Ok(())
}
