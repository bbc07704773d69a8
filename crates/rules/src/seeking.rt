// Looking through the entries of a list in a sheet for the first that breaks a rule.
// What is answered is defined in specs/.
ghost use Rattle.std.specs.Prelude.{◌≡◌, ◌<◌, ℕ};
ghost use Rattle.std.specs.Iterator.{at_most};
ghost use Rattle.types.specs.Rows;
ghost use Rattle.types.specs.Table.{numbers};
ghost use Rattle.meaning.specs.Values.{Parts, Values};
ghost use Rattle.messages.specs.Taking.{Rowed};
ghost use Rattle.rules.specs.Rsi.{first_broken, passes};
ghost use Rattle.rules.specs.Breaches.{checked, told, Judges};

use crate::Breach;
use answers::Reason;
use messages::{FirstTold, Listing, first_told};

// The first entry of a list that breaks a rule, still to be looked for: `next` looks, once, and asks that the rule can be called.
#[derive(Drop)]
pub struct FirstBreach<'a, F> {
    pub broken: FirstTold<'a, F>,
}

impl<F: Fn(usize) -> Option<Reason>> Iterator for FirstBreach<'_, F> {
    type Item = Breach;

    ghost can_next = { λ s. F.IsAlwaysCallable s.broken.tell };

    ghost next_gives = { λ s answer t. (s.broken.rows.now ≡ numbers Rows.rows → (broken_by : Parts → ℕ) (row : ℕ) (vs : Values) → row < 414 → Rowed s.broken.sheet.now row s.broken.list vs → Judges (F.post s.broken.tell) s.broken.sheet.now s.broken.list row broken_by → told (checked answer) ≡ first_broken broken_by 0 vs passes) × (t ≡ record { broken = record { rows = s.broken.rows; list = record { count = 0; row = s.broken.list.row; place = s.broken.list.place }; sheet = s.broken.sheet; tell = s.broken.tell } }) };

    ghost remaining = { λ s. at_most s.broken.list.count };

    fn next(&mut self) -> Option<Breach> {
        let (place, reason) = self.broken.next()?;
        Some(Breach::new(reason, place))
    }
}

// The first entry of `list` in `sheet` that breaks a rule, where `rule` says which one the entry at a place breaks: `next` of the answer gives it, and
// nothing where none breaks one.
pub fn first_breach<'a, F: Fn(usize) -> Option<Reason>>(
    rows: &'a [u32],
    list: Listing,
    sheet: &'a [i64],
    rule: F,
) -> FirstBreach<'a, F>
    ensures asked { result ≡ record { broken = record { rows = rows.entry; list = list; sheet = sheet.entry; tell = rule } } }
    ensures finds { (answer : _) (after : _) → ⟦<FirstBreach<'a, F> as Iterator>⟧.next_gives result answer after → rows.now ≡ numbers Rows.rows → (broken_by : Parts → ℕ) (row : ℕ) (vs : Values) → row < 414 → Rowed sheet.now row list vs → Judges (F.post rule) sheet.now list row broken_by → told (checked answer) ≡ first_broken broken_by 0 vs passes }
{
    FirstBreach {
        broken: first_told(rows, list, sheet, rule),
    }
}
