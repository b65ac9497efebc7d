// The records that were sent, stream by stream.
ghost use Rattle.std.specs.Prelude.{◌≡◌, ◌++◌, ◌<◌, OnOk, All, length, string_bytes};
ghost use Rattle.std.specs.List.{flat_map};
ghost use Rattle.echo_run.specs.Driver.{IsWritable};
ghost use Rattle.echo_run.specs.Text.{is_on, records_on, origin_text, record_line, stream_text, streams_from};

use crate::{Origin, Sent};
use cl_base::NoMemory;
use line_text::{put, put_count, put_hex};
use sbe_client::encode_egress;

fn put_origin(page: &mut String, origin: Origin) -> Result<(), NoMemory>
    ensures { OnOk result (string_bytes page.new ≡ string_bytes page.old ++ origin_text origin) }
{
    match origin {
        Origin::Module { entry, .. } => write!(page, "{entry} module")?,
        Origin::Service {
            entry,
            service,
            number,
        } => write!(page, "{entry} service {service} {number}")?,
        Origin::Direct => write!(page, "- direct")?,
    }
    Ok(())
}

fn put_record(page: &mut String, s: &Sent) -> Result<(), NoMemory>
    requires { IsWritable s.now }
    ensures { OnOk result (string_bytes page.new ≡ string_bytes page.old ++ record_line s.now) }
{
    let bytes = encode_egress(*page.allocator(), &s.egress)?;
    put(page, "out ")?;
    put_origin(page, s.origin)?;
    put(page, " ")?;
    put_hex(page, bytes.as_slice())?;
    put(page, "\n")
}

fn is_on(stream: u64, s: &Sent) -> bool
    requires { stream < 64 }
    ensures { result ≡ is_on stream s.now }
{
    s.stream as i64 == stream as i64
}

/// How many records are on a stream.
fn count_on(stream: u64, sent: &[Sent]) -> u64
    requires { stream < 64 }
    ensures { result ≡ length (records_on stream sent.now) }
{
    let mut count = 0;
    for s in sent {
        if is_on(stream, s) {
            count += 1;
        }
    }
    count
}

fn put_records(page: &mut String, stream: u64, sent: &[Sent]) -> Result<(), NoMemory>
    requires stream { stream < 64 }
    requires written { All IsWritable sent.now }
    ensures { OnOk result (string_bytes page.new ≡ string_bytes page.old ++ flat_map record_line (records_on stream sent.now)) }
{
    for s in sent {
        if is_on(stream, s) {
            put_record(page, s)?;
        }
    }
    Ok(())
}

/// The lines of a stream, where it has a record.
fn put_stream(page: &mut String, stream: u64, sent: &[Sent]) -> Result<(), NoMemory>
    requires stream { stream < 64 }
    requires written { All IsWritable sent.now }
    ensures { OnOk result (string_bytes page.new ≡ string_bytes page.old ++ stream_text stream (records_on stream sent.now)) }
{
    let count = count_on(stream, sent);
    if count == 0 {
        return Ok(());
    }
    put_count(page, "stream ", stream)?;
    put_count(page, " egress ", count)?;
    put(page, "\n")?;
    put_records(page, stream, sent)
}

/// The streams of the 64 clients, rising.
pub(crate) fn put_streams(page: &mut String, sent: &[Sent]) -> Result<(), NoMemory>
    requires { All IsWritable sent.now }
    ensures { OnOk result (string_bytes page.new ≡ string_bytes page.old ++ streams_from 64 0 sent.now) }
{
    for stream in 0..64u64 {
        put_stream(page, stream, sent)?;
    }
    Ok(())
}
