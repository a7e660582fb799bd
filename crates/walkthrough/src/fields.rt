// A filter's class and selector, field by field.
use model::fault::Layer;
use netlink::buffer::NlaBuffer;
use netlink::walker::NlasIterator;
use payload::parsers::parse;
use std::fmt;
use std::fmt::Display;
use tc_filter::cls_u32::{TCA_U32_CLASSID, TCA_U32_SEL};
use tc_records::cls_u32::TcU32Key;
use tc_records::header::TcHandle;
use tc_records::record::Record;
use tc_records::selector::TcU32Selector;

/// The fields of a selector, and those of its keys.
#[derive(Clone, Copy)]
struct Selector<'a>(TcU32Selector<'a>);

impl<'a> Selector<'a> {
    // The trees show the same fields in other words.
    /// A line for the selector's own fields.
    fn write_numbers<W: fmt::Write>(&self, f: &mut fmt::Formatter<W>) -> fmt::Result {
        let TcU32Selector {
            flags,
            offshift,
            nkeys,
            offmask,
            off,
            offoff,
            hoff,
            hmask,
            keys: _,
        } = self.0;
        writeln!(
            f,
            "selector: flags {flags:02X}, offshift {offshift}, offmask {offmask:04X}, off {off}, offoff {offoff}, hoff {hoff}, hmask {hmask:08X}, keys {nkeys}"
        )
    }
}

impl<'a> fmt::Display for Selector<'a> {
    fn fmt<W: fmt::Write>(&self, f: &mut fmt::Formatter<W>) -> fmt::Result {
        self.write_numbers(f)?;
        let Selector(selector) = *self;
        let keys = (0..usize::from(selector.nkeys)).filter_map(|i| selector.key(i));
        for (i, key) in keys.enumerate() {
            let TcU32Key {
                mask,
                val,
                off,
                offmask,
            } = key;
            writeln!(
                f,
                "  key {i}: mask {mask:08X}, val {val:08X}, off {off}, offmask {offmask}"
            )?;
        }
        Ok(())
    }
}

/// The fields of a filter's class and selector.
#[derive(Clone, Copy)]
pub(crate) struct Fields<'a>(pub(crate) &'a [u8]);

/// Writes the fields of an option that is a class or a selector.
fn write_option<W: fmt::Write>(f: &mut fmt::Formatter<W>, option: &NlaBuffer<'_>) -> fmt::Result {
    match option.kind() {
        TCA_U32_CLASSID => {
            if let Ok(number) = parse::<u32, 4>(option.value) {
                let class = TcHandle::from(number);
                writeln!(f, "class {class}")?;
            }
        }
        TCA_U32_SEL => {
            if let Ok(selector) = TcU32Selector::parse(option.value) {
                Selector(selector).fmt(f)?;
            }
        }
        _ => {}
    }
    Ok(())
}

impl<'a> fmt::Display for Fields<'a> {
    fn fmt<W: fmt::Write>(&self, f: &mut fmt::Formatter<W>) -> fmt::Result {
        let options = NlasIterator::new(self.0, Layer::FilterOption);
        for option in options.filter_map(Result::ok) {
            write_option(f, &option)?;
        }
        Ok(())
    }
}
