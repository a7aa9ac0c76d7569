//! Tables made, copied and changed.
ghost use Rattle.std.specs.Prelude.{◌≡◌, ◌<◌, Some, IfOk, OnOk, OnErr, position};
ghost use Rattle.production_table.specs.declared.tables.TableRow.{TableRow};
ghost use Rattle.game_types.specs.Sound.{IsSound, IsSoundSetup};
ghost use Rattle.production_table.specs.Changes.{empty_table, new_row, with_balance, with_import, with_price, with_row, with_row_at, with_surplus, with_want, without_row, Changes, ChangesInMemory, HasRoom};
ghost use Rattle.production_table.specs.Tables.{is_label, IsSoundTable};
ghost use Rattle.table_rows.specs.Setups.{IsFitting};

use crate::numbers::{reprice, rewant};
use crate::row_lists::{check_row, copied, copied_rows, insert_row, new_row, set_price_at};
use crate::{Table, TableFault, TableRow};
use fractions::Ratio;
use game_types::{Game, Setup};
use plan_base::{Denied, GoodId, Items, NoMemory, Text};
use std::alloc::Global;
use std::mem;
use table_rows::check_setup;

impl TableRow {
    /// An equal row of its own.
    ///
    /// # Errors
    ///
    /// `NoMemory` where memory could not be had.
    pub fn copy(&self, alloc: Global) -> Result<TableRow, NoMemory>
        ensures { IfOk result (λ copy. copy ≡ self.now) }
    {
        let label = Text::copy(alloc, self.label.as_str())?;
        let setup = self.setup.copy(alloc)?;
        Ok(TableRow {
            label,
            setup,
            price: self.price,
        })
    }
}

impl Table {
    /// A table with no rows and no goods, which balances no power.
    ///
    /// # Errors
    ///
    /// `NoMemory` where memory could not be had.
    pub fn make(alloc: Global, name: &str) -> Result<Table, NoMemory>
        ensures table { IfOk result (λ table. table ≡ empty_table name.now) }
        ensures sound { IfOk result IsSoundTable }
    {
        let name = Text::copy(alloc, name)?;
        Ok(Table {
            name,
            rows: Items::from_vec(Vec::new(alloc)),
            wants: Items::from_vec(Vec::new(alloc)),
            imports: Items::from_vec(Vec::new(alloc)),
            surpluses: Items::from_vec(Vec::new(alloc)),
            power: false,
        })
    }

    /// An equal table of its own.
    ///
    /// # Errors
    ///
    /// `NoMemory` where memory could not be had.
    pub fn copy(&self, alloc: Global) -> Result<Table, NoMemory>
        ensures { IfOk result (λ copy. copy ≡ self.now) }
    {
        let name = Text::copy(alloc, self.name.as_str())?;
        let rows = copied_rows(alloc, self.rows.as_slice())?;
        let wants = copied(alloc, &self.wants)?;
        let imports = copied(alloc, &self.imports)?;
        let surpluses = copied(alloc, &self.surpluses)?;
        Ok(Table {
            name,
            rows,
            wants,
            imports,
            surpluses,
            power: self.power,
        })
    }

    /// The place of the row with a label, where there is one.
    pub fn find_row(&self, label: &str) -> Option<usize>
        ensures { result ≡ position (is_label label.now) self.now.rows }
    {
        self.rows
            .as_slice()
            .iter()
            .position(|row| row.label.as_str() == label)
    }

    /// A row of this label comes in at the end, with price 0. `drop_row` of the label undoes it.
    ///
    /// # Errors
    ///
    /// The first of these, exactly, unless memory could not be had: `LabelUsed` (P5) where a row has the label; `Full` (P3)
    /// where there are 512 rows; the faults of `check_setup`, of which `Temperature` (P4) comes first.
    pub fn add_row(
        &mut self,
        alloc: Global,
        game: &Game,
        label: &str,
        setup: Setup,
    ) -> Result<(), Denied<TableFault>>
        requires game { IsSound game.now }
        requires setup { IsSoundSetup game.now setup }
        requires sound { IsSoundTable self.old }
        ensures change { ChangesInMemory (with_row game.now label.now setup self.old) result self.old self.new }
        ensures fits { OnOk result (IsFitting game.now setup) }
        ensures sound { IsSoundTable self.new }
    {
        check_row(self, game, label, &setup)?;
        let row = new_row(alloc, label, setup)?;
        let end = self.rows.len();
        insert_row(alloc, &mut self.rows, end, row)?;
        Ok(())
    }

    /// The row with this label is dropped. Answers its place and the row; `put_row` of both undoes it.
    ///
    /// # Errors
    ///
    /// `Unknown` (P1) exactly where no row has the label.
    pub fn drop_row(&mut self, alloc: Global, label: &str) -> Result<(u32, TableRow), TableFault>
        requires sound { IsSoundTable self.old }
        ensures change { Changes (without_row label.now self.old) result self.old self.new }
        ensures sound { IsSoundTable self.new }
    {
        let Some(place) = self.find_row(label) else {
            return Err(TableFault::Unknown);
        };
        let no_rows = Items::from_vec(Vec::new(alloc));
        let mut rows = mem::replace(&mut self.rows, no_rows).into_vec();
        let row = rows.remove(place);
        self.rows = Items::from_vec(rows);
        Ok((place as u32, row))
    }

    /// A row goes to a place, which undoes a `drop_row` that gave both.
    ///
    /// # Errors
    ///
    /// `NoMemory` where memory could not be had.
    pub fn put_row(&mut self, alloc: Global, place: u32, row: TableRow) -> Result<(), NoMemory>
        requires room { HasRoom self.old place row }
        requires sound { IsSoundTable self.old }
        ensures change { OnOk result (self.new ≡ with_row_at place row self.old) }
        ensures err { OnErr result (self.new ≡ self.old) }
        ensures sound { IsSoundTable self.new }
    {
        insert_row(alloc, &mut self.rows, place as usize, row)
    }

    /// What is wanted of a good, in units a second, where 0 takes the want away. Answers the old want; setting that, or 0,
    /// undoes it.
    ///
    /// # Errors
    ///
    /// The first of these, exactly, unless memory could not be had: `Negative` (P2); `Full` (P3) where a rate above 0 is of a
    /// new good beside 512 others.
    pub fn set_want(
        &mut self,
        alloc: Global,
        good: GoodId,
        rate: &Ratio,
    ) -> Result<Option<Ratio>, Denied<TableFault>>
        requires sound { IsSoundTable self.old }
        ensures change { ChangesInMemory (with_want good rate.now self.old) result self.old self.new }
        ensures sound { IsSoundTable self.new }
    {
        rewant(alloc, &mut self.wants, good, rate)
    }

    /// A good may come in, at this price of one unit; with none it may not. Answers the old price; setting that undoes it.
    ///
    /// # Errors
    ///
    /// The first of these, exactly, unless memory could not be had: `Unknown` (P1) where there is none to take away;
    /// `Negative` (P2); `Full` (P3) where the good is new beside 512 others.
    pub fn set_import(
        &mut self,
        alloc: Global,
        good: GoodId,
        price: Option<Ratio>,
    ) -> Result<Option<Ratio>, Denied<TableFault>>
        requires sound { IsSoundTable self.old }
        ensures change { ChangesInMemory (with_import good price self.old) result self.old self.new }
        ensures sound { IsSoundTable self.new }
    {
        reprice(alloc, &mut self.imports, good, price)
    }

    /// A good may go out, at this price of one unit; with none it may not. Answers the old price; setting that undoes it.
    ///
    /// # Errors
    ///
    /// Those of `set_import`.
    pub fn set_surplus(
        &mut self,
        alloc: Global,
        good: GoodId,
        price: Option<Ratio>,
    ) -> Result<Option<Ratio>, Denied<TableFault>>
        requires sound { IsSoundTable self.old }
        ensures change { ChangesInMemory (with_surplus good price self.old) result self.old self.new }
        ensures sound { IsSoundTable self.new }
    {
        reprice(alloc, &mut self.surpluses, good, price)
    }

    /// What one craft a second of the row with this label costs. Answers the old price; setting that undoes it.
    ///
    /// # Errors
    ///
    /// The first of these, exactly: `Unknown` (P1) where no row has the label; `Negative` (P2).
    pub fn set_price(
        &mut self,
        alloc: Global,
        label: &str,
        price: &Ratio,
    ) -> Result<Ratio, TableFault>
        requires sound { IsSoundTable self.old }
        ensures change { Changes (with_price label.now price.now self.old) result self.old self.new }
        ensures sound { IsSoundTable self.new }
    {
        let Some(place) = self.find_row(label) else {
            return Err(TableFault::Unknown);
        };
        if price.is_neg() {
            return Err(TableFault::Negative);
        }
        let no_rows = Items::from_vec(Vec::new(alloc));
        let mut rows = mem::replace(&mut self.rows, no_rows).into_vec();
        let old = set_price_at(&mut rows, place, price);
        self.rows = Items::from_vec(rows);
        Ok(old)
    }

    /// Sets whether the table balances its electric power, and answers what was so before; setting that undoes it.
    pub fn set_power(&mut self, on: bool) -> bool
        requires { IsSoundTable self.old }
        ensures old { result ≡ (with_balance on self.old).0 }
        ensures new { self.new ≡ (with_balance on self.old).1 }
        ensures sound { IsSoundTable self.new }
    {
        let old = self.power;
        self.power = on;
        old
    }
}
