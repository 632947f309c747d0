//! Appends parameters to a text.
ghost use Rattle.std.specs.Prelude.{◌≡◌, ◌++◌, option_map, decimal, OnOk, OnErr, string_bytes};
ghost use Rattle.event_headers.specs.Written.{parameter_text};

use sip_text::NoMemory;

/// Appends `;name=value`, where there is a value.
pub fn append_parameter(name: &str, value: Option<&str>, out: &mut String) -> Result<(), NoMemory>
    ensures { OnOk result (string_bytes out.new
        ≡ string_bytes out.old ++ parameter_text name.now (option_map (λ v. v.now) value.entry)) }
{
    if let Some(value) = value {
        write!(out, ";{name}={value}")?;
    }
    Ok(())
}

/// Appends `;name=seconds`, where there are seconds.
pub fn append_seconds(name: &str, seconds: Option<u32>, out: &mut String) -> Result<(), NoMemory>
    ensures { OnOk result (string_bytes out.new
        ≡ string_bytes out.old ++ parameter_text name.now (option_map decimal seconds)) }
{
    if let Some(seconds) = seconds {
        write!(out, ";{name}={seconds}")?;
    }
    Ok(())
}

/// Appends the text to the bytes. After an error they are as they were.
pub fn append_text(text: &str, out: &mut Vec<u8>) -> Result<(), NoMemory>
    ensures ok { OnOk result (out.new.items ≡ out.old.items ++ text.now) }
    ensures err { OnErr result (out.new.items ≡ out.old.items) }
{
    out.extend_from_slice(text.as_bytes())?;
    Ok(())
}
