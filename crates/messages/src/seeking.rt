// Looking through the entries of a list in a sheet, one by one.
// What is answered is defined in specs/.
ghost use Rattle.std.specs.Prelude.{◌≡◌, ◌<◌, ℕ};
ghost use Rattle.std.specs.Iterator.{at_most};
ghost use Rattle.types.specs.Rows;
ghost use Rattle.types.specs.Table.{numbers};
ghost use Rattle.meaning.specs.Values.{Values};
ghost use Rattle.messages.specs.Taking.{Rowed};
ghost use Rattle.messages.specs.Seeking.{Sought};

use crate::{Listing, behind};

// The first entry of `list` in `sheet` of which `tell` says something, still to be looked for: `next` looks, once. It is `next` that calls `tell`, and so
// asks that `tell` can be called, as in the library's own iterators that are handed a closure.
#[derive(Drop)]
pub struct FirstTold<'a, F> {
    pub rows: &'a [u32],
    pub list: Listing,
    pub sheet: &'a [i64],
    pub tell: F,
}

impl<T, F: Fn(usize) -> Option<T>> Iterator for FirstTold<'_, F> {
    type Item = (usize, T);

    ghost can_next = { λ s. F.IsAlwaysCallable s.tell };

    ghost next_gives = { λ s answer t. (s.rows.now ≡ numbers Rows.rows → (row : ℕ) (vs : Values) → row < 414 → Rowed s.sheet.now row s.list vs → Sought (F.post s.tell) s.sheet.now s.list row 0 vs answer) × (t ≡ record { rows = s.rows; list = record { count = 0; row = s.list.row; place = s.list.place }; sheet = s.sheet; tell = s.tell }) };

    ghost remaining = { λ s. at_most s.list.count };

    fn next(&mut self) -> Option<(usize, T)> {
        let (rows, list, sheet) = (self.rows, self.list, self.sheet);
        self.list.count = 0;
        let mut at = list.place;
        for i in 0..list.count as usize {
            if let Some(said) = (self.tell)(at) {
                return Some((i, said));
            }
            at = behind(rows, list.row, sheet, at);
        }
        None
    }
}

// The first entry of `list` in `sheet` of which `tell` says something, by its place: `next` of the answer gives which one it is, counted from 0, and
// what is said; nothing where there is none.
pub fn first_told<'a, T, F: Fn(usize) -> Option<T>>(
    rows: &'a [u32],
    list: Listing,
    sheet: &'a [i64],
    tell: F,
) -> FirstTold<'a, F>
    ensures asked { result ≡ record { rows = rows.entry; list = list; sheet = sheet.entry; tell = tell } }
    ensures finds { (answer : _) (after : _) → ⟦<FirstTold<'a, F> as Iterator>⟧.next_gives result answer after → rows.now ≡ numbers Rows.rows → (row : ℕ) (vs : Values) → row < 414 → Rowed sheet.now row list vs → Sought (F.post tell) sheet.now list row 0 vs answer }
{
    FirstTold {
        rows,
        list,
        sheet,
        tell,
    }
}
