//! Tables of live locals.
ghost use Rattle.std.specs.Prelude.{◌≡◌, [], get_or};
ghost use Rattle.fmp_live.specs.LiveLocals.{is_live as is_live_in, live_table, live_tables, row_of, table_at};

/// Which of its 64 locals are live at each place of a body. A place without a row has all of them live.
#[derive(Drop)]
pub struct LiveRows {
    /// Where the body goes on from the place.
    pub goes: Vec<[bool; 64]>,
    /// Where it awaits there the reply to the call before the place.
    pub awaits: Vec<[bool; 64]>,
}

/// The live locals of all bodies, in order of number. A body without a table has all of its locals live everywhere.
#[derive(Drop)]
pub struct LiveLocals {
    pub bodies: Vec<LiveRows>,
}

/// The row of a place, empty if it has none.
pub fn row_at(rows: &[[bool; 64]], place: usize) -> &[bool]
    ensures { result.now ≡ get_or rows.now place [] }
{
    match rows.get(place) {
        None => &[],
        Some(row) => row.as_slice(),
    }
}

/// Whether a local is live at a place.
pub fn is_live(rows: &[[bool; 64]], place: usize, local: usize) -> bool
    ensures { result ≡ is_live_in rows.now place local }
{
    match row_at(rows, place).get(local) {
        None => true,
        Some(live) => *live,
    }
}

impl LiveRows {
    /// Which locals are live at a place, where the body goes on from there or awaits a reply there.
    fn row(&self, place: u16, goes: bool) -> &[bool]
        ensures { result.now ≡ row_of (live_table self.now) place goes }
    {
        let rows = if goes { &self.goes } else { &self.awaits };
        row_at(rows, usize::from(place))
    }
}

impl LiveLocals {
    /// Which locals of a body are live at a place, where it goes on from there or awaits a reply there. A local after
    /// the end of the row is live.
    pub fn row(&self, body: u8, place: u16, goes: bool) -> &[bool]
        ensures { result.now ≡ row_of (table_at (live_tables self.now) body) place goes }
    {
        match self.bodies.get(usize::from(body)) {
            None => &[],
            Some(rows) => rows.row(place, goes),
        }
    }
}
