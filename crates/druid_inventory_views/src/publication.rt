use std::marker::Brand;

/// What one `open` begins: the inventory that it begins with, and the list of what is published from then on.
pub trait Publication {
    ghost use Rattle.std.specs.Prelude.{List};
    ghost use Rattle.logbook.specs.Pages.{Book};
    ghost use Rattle.druid_inventory.specs.Entry.{Entry};

    ghost opening: { List Entry };

    ghost book: { Book };
}

// Each call of a program picks it.
impl Publication for Brand {
    ghost use Rattle.std.specs.Prelude.{[]};

    ghost opening = { [] };

    ghost book = { record { number = 0; log_name = 0; cells_name = 0 } };
}
