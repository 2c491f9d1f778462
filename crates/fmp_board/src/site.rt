//! Boards as types.
use std::marker::Brand;

/// Stands for one board, so that what lies under its lock is known by its type: the image that it runs, how many
/// instructions a stretch of a body may take, and its row, with how many events it has room for, and how many seats. A
/// host of a board writes a function generic over `S: Site`, and calls it, outside of any closure, with `Brand` of std.
pub trait Site {
    ghost use Rattle.std.specs.Prelude.{ℕ};
    ghost use Rattle.fmp_image_bytes.specs.Images.{ImageTables};
    ghost use Rattle.fmp_journal.specs.Seats.{RowId};

    ghost image: { ImageTables };

    ghost bound: { ℕ };

    ghost row_id: { RowId };
}

impl Site for Brand {
    ghost use Rattle.fmp_board.specs.Sites.{no_image, no_row};

    ghost image = { no_image };

    ghost bound = { 0 };

    ghost row_id = { no_row };
}
