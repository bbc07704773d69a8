// What a crate that looks through a list makes of `messages::first_told` and `rules::first_breach`: the answers at once, with promises of their own.
// Only tests call it.
#![tactic(auto)]

ghost use Rattle.std.specs.Prelude.{◌≡◌, ◌<◌, ℕ};
ghost use Rattle.types.specs.Rows;
ghost use Rattle.types.specs.Table.{numbers};
ghost use Rattle.meaning.specs.Values.{Parts, Values};
ghost use Rattle.messages.specs.Taking.{Rowed};
ghost use Rattle.messages.specs.Seeking.{Sought};
ghost use Rattle.rules.specs.Rsi.{first_broken, passes};
ghost use Rattle.rules.specs.Breaches.{told, Judges};

use answers::Reason;
use messages::Listing;
use rules::Breach;

// The first entry of `list` in `sheet` of which `tell` says something, by its place: which one it is, counted from 0, and what is said; nothing
// where there is none.
fn first_told<T, F: Fn(usize) -> Option<T>>(
    rows: &[u32],
    list: Listing,
    sheet: &[i64],
    tell: F,
) -> Option<(usize, T)>
    requires calls { F.IsAlwaysCallable tell }
    ensures { rows.now ≡ numbers Rows.rows → (row : ℕ) (vs : Values) → row < 414 → Rowed sheet.now row list vs → Sought (F.post tell) sheet.now list row 0 vs result }
{
    messages::first_told(rows, list, sheet, tell).next()
}

// The first entry of `list` in `sheet` that breaks a rule, where `rule` says which one the entry at a place breaks.
fn first_breach<F: Fn(usize) -> Option<Reason>>(
    rows: &[u32],
    list: Listing,
    sheet: &[i64],
    rule: F,
) -> Result<(), Breach>
    requires calls { F.IsAlwaysCallable rule }
    ensures { rows.now ≡ numbers Rows.rows → (broken_by : Parts → ℕ) (row : ℕ) (vs : Values) → row < 414 → Rowed sheet.now row list vs → Judges (F.post rule) sheet.now list row broken_by → told result ≡ first_broken broken_by 0 vs passes }
{
    match rules::first_breach(rows, list, sheet, rule).next() {
        Some(breach) => Err(breach),
        None => Ok(()),
    }
}

#[cfg(test)]
mod tests {
    use super::*;
    use answers::Refusal;
    use messages::{entries_of, framed, number_of};
    use sheet::has;
    use std::test::Fail;

    // A component of RoadsideSafetyMessage (source 000, 5.2.2.4), and two of ParticipantData (5.2.3.23): participants, ptcId, vehicleClass.
    const PARTICIPANTS: usize = 3;

    const PTC_ID: usize = 1;

    const VEHICLE_CLASS: usize = 14;

    // A frame with an RSM of three participants: 0 and 7 with a class, and 9 without. The first line ends with how many there are; each of the others is
    // a participant.
    const SHEET: [i64; 81] = [
        2, 5, 1, 2, 3, 4, 5, 6, 7, 8, 0, 399042000, 1164074000, 3, //
        0, 0, 0, 0, 0, 1, 1, 0, 3, 500, 0, 0, 10, -10, 0, 5, 100, 200, 0, 180, 450, 0, 10, //
        0, 0, 0, 0, 0, 1, 1, 7, 3, 500, 0, 0, 10, -10, 0, 5, 100, 200, 0, 180, 450, 0, 10, //
        0, 0, 0, 0, 0, 0, 1, 9, 3, 500, 0, 0, 10, -10, 0, 5, 100, 200, 0, 180, 450,
    ];

    // The participants in `SHEET`.
    fn participants(rows: &[u32]) -> Result<Listing, Refusal> {
        let frame = framed(rows, &SHEET)?;
        Ok(entries_of(rows, frame.row, PARTICIPANTS, &SHEET, frame.place))
    }

    #[test]
    fn first_with_an_id(rt: HostRuntime) -> Result<(), Fail> {
        let rows = types::rows();
        let list = participants(&rows)?;
        for (asked, first) in [
            (0, Some((0, 14))),
            (7, Some((1, 37))),
            (9, Some((2, 60))),
            (8, None),
        ] {
            let tell = |at: usize| {
                if number_of(&rows, list.row, PTC_ID, &SHEET, at) == asked {
                    Some(at)
                } else {
                    None
                }
            };
            assert_eq!(rt;
                first_told(&rows, list, &SHEET, tell),
                first,
                "participant {asked}"
            );
        }
        Ok(())
    }

    #[test]
    fn told_once(rt: HostRuntime) -> Result<(), Fail> {
        let rows = types::rows();
        let list = participants(&rows)?;
        let mut each = messages::first_told(&rows, list, &SHEET, |at| Some(at));
        assert_eq!(rt; each.next(), Some((0, 14)));
        assert_eq!(rt; each.next(), None);
        Ok(())
    }

    #[test]
    fn first_without_a_class(rt: HostRuntime) -> Result<(), Fail> {
        let rows = types::rows();
        let list = participants(&rows)?;
        let lacks = |at: usize| {
            if has(&rows, list.row, VEHICLE_CLASS, &SHEET, at) {
                None
            } else {
                Some(Reason::FieldMissing)
            }
        };
        let first = Breach::new(Reason::FieldMissing, 2);
        assert_eq!(rt; first_breach(&rows, list, &SHEET, lacks), Err(first));
        assert_eq!(rt; first_breach(&rows, list, &SHEET, |_| None), Ok(()));
        Ok(())
    }
}
