//! Copies of the docket that is served.
ghost use Rattle.docket_serving.specs.Serving.{GivesCopy};

use docket_copies::DocketFiles;
use docket_http::{ServeFault, Served, send_copy};
use std::alloc::Global;
use std::io::Write;

/// Answers with a copy of the docket in these files, or that there is none: the docket is not kept in files,
/// or no sound copy could be made.
pub(crate) fn give_copy<W: Write>(
    alloc: Global,
    files: Option<DocketFiles<'_>>,
    writer: &mut W,
) -> Result<Served, ServeFault>
    ensures { GivesCopy (W.contents writer.old) (W.contents writer.new) result }
{
    let Some(files) = files else {
        return send_copy(alloc, writer, None);
    };
    match files.copy() {
        Ok(copy) => send_copy(alloc, writer, Some(copy)),
        Err(_) => send_copy(alloc, writer, None),
    }
}
