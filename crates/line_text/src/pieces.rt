// The pieces of which a text is made. Each is written behind what stands on the page; after NoMemory some of it may stand there.
ghost use Rattle.std.specs.Prelude.{◌≡◌, ◌++◌, OnOk, string_bytes};
ghost use Rattle.std.specs.Fmt.{decimal, signed_decimal};
ghost use Rattle.hex.specs.Hex.{encode_lower};
ghost use Rattle.line_text.specs.Pieces.{hex_text, count, value};

use cl_base::NoMemory;

/// Words.
pub fn put(page: &mut String, words: &str) -> Result<(), NoMemory>
    ensures { OnOk result (string_bytes page.new ≡ string_bytes page.old ++ words.now) }
{
    page.push_str(words)?;
    Ok(())
}

/// A number in decimal digits.
pub fn put_number(page: &mut String, n: u64) -> Result<(), NoMemory>
    ensures { OnOk result (string_bytes page.new ≡ string_bytes page.old ++ decimal n) }
{
    write!(page, "{n}")?;
    Ok(())
}

/// A signed number in decimal digits, a minus before it where it is below 0.
pub fn put_signed(page: &mut String, n: i64) -> Result<(), NoMemory>
    ensures { OnOk result (string_bytes page.new ≡ string_bytes page.old ++ signed_decimal n) }
{
    write!(page, "{n}")?;
    Ok(())
}

/// Bytes as pairs of lower case digits, or a dash where there are none.
pub fn put_hex(page: &mut String, bytes: &[u8]) -> Result<(), NoMemory>
    ensures { OnOk result (string_bytes page.new ≡ string_bytes page.old ++ hex_text bytes.now) }
{
    if bytes.is_empty() {
        return put(page, "-");
    }
    let text = hex::encode(*page.allocator(), bytes)?;
    put(page, text.as_str())
}

/// Words, and a number behind them.
pub fn put_count(page: &mut String, words: &str, n: u64) -> Result<(), NoMemory>
    ensures { OnOk result (string_bytes page.new ≡ string_bytes page.old ++ count words.now n) }
{
    put(page, words)?;
    put_number(page, n)
}

/// Words, and a signed number behind them.
pub fn put_value(page: &mut String, words: &str, n: i64) -> Result<(), NoMemory>
    ensures { OnOk result (string_bytes page.new ≡ string_bytes page.old ++ value words.now n) }
{
    put(page, words)?;
    put_signed(page, n)
}

/// The same at 32 bits.
pub fn put_value32(page: &mut String, words: &str, n: i32) -> Result<(), NoMemory>
    ensures { OnOk result (string_bytes page.new ≡ string_bytes page.old ++ value words.now n) }
{
    put(page, words)?;
    write!(page, "{n}")?;
    Ok(())
}
