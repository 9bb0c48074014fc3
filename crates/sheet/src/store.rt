//! Where the records of a sheet go: a list, or the front of a table.
ghost use Rattle.std.specs.Prelude.{◌≡◌, ◌+◌, ◌<◌, ◌≤◌, List, [], ◌∷◌, length, take, drop, vec_capacity};
ghost use Rattle.sheet.specs.Spaces.{Space, with_all};

/// A place that takes records one by one, up to its room.
pub(crate) trait Store<R> {
    ghost space: { Self → Space R };

    /// The records so far.
    fn so_far(&self) -> &[R]
        ensures { result.now ≡ (space self.now).kept };

    /// Takes one record more.
    fn keep(&mut self, new: R)
        requires { length (space self.old).kept < (space self.old).room }
        ensures { space self.new ≡ with_all (space self.old) (new ∷ []) };
}

impl<R: Copy> Store<R> for Vec<R> {
    ghost space = { λ v. record { kept = v.items; rest = []; room = vec_capacity v; lent = 0 } };

    fn so_far(&self) -> &[R] {
        self.as_slice()
    }

    fn keep(&mut self, new: R) {
        self.push_reserved(new);
    }
}

/// The front of a table, with the records that stand there.
#[derive(Drop)]
pub(crate) struct Front<'t, R> {
    pub(crate) table: &'t mut [R],
    // A count beside the table, which is lent and may have more entries.
    pub(crate) count: usize,
    ghost within: { count ≤ length table.now },
}

impl<R: Copy> Store<R> for Front<'_, R> {
    ghost space = { λ f. record { kept = take f.count f.table.now; rest = drop f.count f.table.now; room = length f.table.now; lent = f.table.ghost_name } };

    fn so_far(&self) -> &[R] {
        &self.table[..self.count]
    }

    fn keep(&mut self, new: R) {
        self.table[self.count] = new;
        self.count += 1;
    }
}
