// How the attributes of one layer are read and written, and the one loop over a row of them for each.
ghost use Rattle.std.specs.Prelude.{◌≡◌, ◌+◌, ◌≤◌, length, IfOk, Ok};
ghost use Rattle.model.specs.Faults.{answered, layer_number};
ghost use Rattle.model.specs.Walk.{walk};
ghost use Rattle.netlink.specs.Walking.{ahead};
ghost use Rattle.model.specs.Reading.{each};
ghost use Rattle.filter.specs.Tallies.{Bounded};
ghost use Rattle.filter.specs.Writes.{at_front, RoomFor, form_of, RoomForRow, row_form, RoomAround, form_around};
ghost use Rattle.filter.specs.Summaries.{Reader, tally_of, tally_all};

use crate::part::{Part, Row};
use crate::tally::Tally;
use model::fault::{Fault, Layer};
use netlink::nla::head;
use netlink::overwrite::overwrite;

/// How the attributes of one layer are read.
pub(crate) trait Form {
    /// What an attribute reads as.
    ghost reads: { Self → Reader };

    /// Reads an attribute of a filter whole, with all that is inside.
    fn read(&self, part: &Part<'_>) -> Result<Tally, Fault>
        ensures value { answered result ≡ tally_of (reads self.now part.now.nla.place part.now.nla.word part.now.nla.value.now) }
        ensures bounds { IfOk result (λ t. (t.items ≡ 1) × Bounded t (4 + length part.now.nla.value.now)) };

    /// Writes what is written of an attribute that reads at the front of an output where it goes in, and answers how many bytes that took.
    fn write(&self, part: &Part<'_>, output: &mut [u8]) -> Result<usize, Fault>
        requires { RoomFor (reads self.now part.now.nla.place part.now.nla.word part.now.nla.value.now) (length output.old) }
        ensures value { result ≡ Ok (length (form_of (reads self.now part.now.nla.place part.now.nla.word part.now.nla.value.now))) }
        ensures after { output.new ≡ at_front output.old (form_of (reads self.now part.now.nla.place part.now.nla.word part.now.nla.value.now)) };
}

/// Reads a row of attributes, one after another, up to the first fault.
pub(crate) fn read_each<F: Form>(form: &F, row: Row<'_>) -> Result<Tally, Fault>
    ensures value { answered result ≡ tally_all (layer_number row.entry.walk.layer) (F.Form.reads form.now) (ahead row.entry.walk) }
    ensures bounds { IfOk result (λ t. Bounded t (length row.entry.walk.rest.now)) }
{
    let mut tally = Tally::default();
    for part in row {
        let part = part?;
        tally = tally + form.read(&part)?;
    }
    Ok(tally)
}

/// Reads the row of attributes inside an attribute.
pub(crate) fn read_inside<F: Form>(form: &F, part: &Part<'_>, layer: Layer) -> Result<Tally, Fault>
    ensures value { answered result ≡ tally_all (layer_number layer) (F.Form.reads form.now) (walk (part.now.nla.place + 4) part.now.nla.value.now) }
    ensures bounds { IfOk result (λ t. Bounded t (length part.now.nla.value.now)) }
{
    read_each(form, part.row(layer))
}

/// Writes a row of attributes that read, one after another, and answers how many bytes that took.
pub(crate) fn write_each<F: Form>(form: &F, row: Row<'_>, output: &mut [u8]) -> Result<usize, Fault>
    requires { RoomForRow (each (layer_number row.walk.layer) (F.Form.reads form.now) (ahead row.walk)) (length output.old) }
    ensures value { result ≡ Ok (length (row_form (each (layer_number row.entry.walk.layer) (F.Form.reads form.now) (ahead row.entry.walk)))) }
    ensures after { output.new ≡ at_front output.old (row_form (each (layer_number row.entry.walk.layer) (F.Form.reads form.now) (ahead row.entry.walk))) }
{
    let mut end = 0;
    for part in row {
        let part = part?;
        end += form.write(&part, &mut output[end..])?;
    }
    Ok(end)
}

/// Writes an attribute around the row of attributes inside another, and answers how many bytes that took.
pub(crate) fn write_inside<F: Form>(
    form: &F,
    part: &Part<'_>,
    layer: Layer,
    word: u16,
    output: &mut [u8],
) -> Result<usize, Fault>
    requires { RoomAround (each (layer_number layer) (F.Form.reads form.now) (walk (part.now.nla.place + 4) part.now.nla.value.now)) (length output.old) }
    ensures value { result ≡ Ok (length (form_around word (each (layer_number layer) (F.Form.reads form.now) (walk (part.now.nla.place + 4) part.now.nla.value.now)))) }
    ensures after { output.new ≡ at_front output.old (form_around word (each (layer_number layer) (F.Form.reads form.now) (walk (part.now.nla.place + 4) part.now.nla.value.now))) }
{
    let size = 4 + write_each(form, part.row(layer), &mut output[4..])?;
    overwrite(output, 0, &head(size as u16, word));
    Ok(size)
}
