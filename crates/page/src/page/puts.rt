// Attributes that are put: each reads by itself, and is written behind what is used.
ghost use Rattle.std.specs.Prelude.{◌≡◌, ℕ, length, ◌≢◌};
ghost use Rattle.model.specs.Attributes.{type_of};
ghost use Rattle.model.specs.Book.{Meaning};
ghost use Rattle.model.specs.Faults.{answered};
ghost use Rattle.model.specs.Page.{state, reads_alone};
ghost use Rattle.page.specs.Pages.{as_page};
ghost use Rattle.page.specs.Steps.{outcome, appended};

use super::Page;
use model::fault::{Cause, Fault, Layer};
use netlink::buffer::NlaBuffer;
use netlink::default_nla::DefaultNla;
use netlink::traits::Emitable;
use payload::error::ErrorContext;
use tc_filter::action_attribute::TcActionAttribute;
use tc_filter::cls_u32::TcFilterU32Option;

impl Page {
    /// Reads an attribute by itself as a filter option, one that is no list of actions.
    pub(super) fn reads_as_option(&self, word: u16, value: &[u8]) -> Result<(), Fault>
        requires { type_of word ≢ 7 }
        ensures { (m : Meaning) → answered result ≡ reads_alone m (as_page self.now) 0 word value.now }
    {
        let nla = NlaBuffer {
            place: self.used,
            word,
            value,
        };
        TcFilterU32Option::parse(&nla).context(self.used, Layer::FilterOption)?;
        Ok(())
    }

    // As above with another type and layer; the two parsers answer different values that are both let go, so that one function would take the parser as a closure.
    /// Reads an attribute by itself as an action's attribute, one that is no list of options.
    pub(super) fn reads_as_attribute(&self, word: u16, value: &[u8]) -> Result<(), Fault>
        requires { type_of word ≢ 2 }
        ensures { (m : Meaning) → answered result ≡ reads_alone m (as_page self.now) 2 word value.now }
    {
        let nla = NlaBuffer {
            place: self.used,
            word,
            value,
        };
        TcActionAttribute::parse(&nla).context(self.used, Layer::ActionAttribute)?;
        Ok(())
    }

    /// Writes an attribute behind what is used.
    pub(super) fn append(&mut self, memory: &mut [u8], word: u16, value: &[u8]) -> Result<(), Fault>
        requires { length memory.old ≡ self.old.size }
        ensures { outcome (answered result) (state (as_page self.new) memory.new) ≡ appended (state (as_page self.old) memory.old) word value.now }
    {
        let nla = DefaultNla { word, value };
        let used = self.used;
        match nla.emit(&mut memory[used..]) {
            Ok(size) => {
                self.used += size;
                Ok(())
            }
            Err(_) => Err(self.fault(Cause::NoRoom)),
        }
    }
}
