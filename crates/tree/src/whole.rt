// A whole filter.
ghost use Rattle.std.specs.Prelude.{◌≡◌, IfOk};
ghost use Rattle.model.specs.Shipped.{shipped};
ghost use Rattle.filter.specs.Reads.{read_counts};
ghost use Rattle.tree.specs.Readings.{counts_told};

use crate::filter_option::FilterOption;
use cursors::options::Options;
use filter::reading::{Counts, read};
use model::fault::Fault;
use std::fmt;
use std::fmt::Display;
use tc::shipped::ShippedBook;

/// A filter that is read with the shipped book, and its counts. It is shown as a tree, and a line for the counts.
#[derive(Clone, Copy)]
pub struct Reading<'a> {
    filter: &'a [u8],
    counts: Counts,
}

impl<'a> Reading<'a> {
    /// Reads a filter with the shipped book, or answers its first fault.
    pub fn of(filter: &'a [u8]) -> Result<Reading<'a>, Fault>
        ensures counts { counts_told result ≡ read_counts shipped filter.now }
        ensures whole { IfOk result (λ x. x.filter.now ≡ filter.now) }
    {
        let counts = read(&ShippedBook, filter)?;
        Ok(Reading { filter, counts })
    }

    /// Writes a line for each attribute.
    fn write_tree<W: fmt::Write>(&self, f: &mut fmt::Formatter<W>) -> fmt::Result {
        for option in Options::new(self.filter).filter_map(Result::ok) {
            FilterOption(option).fmt(f)?;
        }
        Ok(())
    }
}

impl<'a> fmt::Display for Reading<'a> {
    fn fmt<W: fmt::Write>(&self, f: &mut fmt::Formatter<W>) -> fmt::Result {
        self.write_tree(f)?;
        let Counts {
            options,
            actions,
            action_options,
        } = self.counts;
        writeln!(
            f,
            "{options} options, {actions} actions, {action_options} action options"
        )
    }
}
