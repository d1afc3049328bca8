use crate::fault::CaseFault;
use std::char;

/// Puts a text with escapes: `\\`, `\n`, `\r`, `\t`, `\0`, `\x41` for one byte and `\u{E4}` for one character.
pub fn add_escaped(out: &mut Vec<u8>, text: &str) -> Result<(), CaseFault> {
    let mut is_plain = true;
    for piece in text.split('\\') {
        if is_plain {
            out.extend_from_slice(piece.as_bytes())?;
            is_plain = false;
        } else if piece.is_empty() {
            out.push(b'\\')?;
            is_plain = true;
        } else {
            add_escape(out, piece)?;
        }
    }
    if is_plain {
        return Err(CaseFault::UnknownEscape);
    }
    Ok(())
}

// Puts what stands after a backslash, up to the next one.
fn add_escape(out: &mut Vec<u8>, piece: &str) -> Result<(), CaseFault> {
    let rest = if let Some(number) = piece.strip_prefix('x') {
        add_byte(out, number)?
    } else if let Some(number) = piece.strip_prefix("u{") {
        add_character(out, number)?
    } else {
        add_named(out, piece)?
    };
    out.extend_from_slice(rest.as_bytes())?;
    Ok(())
}

// Puts the byte of two hexadecimal digits, and gives what stands after them.
fn add_byte<'a>(out: &mut Vec<u8>, number: &'a str) -> Result<&'a str, CaseFault> {
    let Some((digits, rest)) = number.split_at_checked(2) else {
        return Err(CaseFault::UnknownEscape);
    };
    match u8::from_str_radix(digits, 16) {
        Ok(byte) => out.push(byte)?,
        Err(_) => return Err(CaseFault::UnknownEscape),
    }
    Ok(rest)
}

// Puts the character whose number stands before a brace, and gives what stands after that.
fn add_character<'a>(out: &mut Vec<u8>, number: &'a str) -> Result<&'a str, CaseFault> {
    let Some((digits, rest)) = number.split_once('}') else {
        return Err(CaseFault::UnknownEscape);
    };
    let Ok(code) = u32::from_str_radix(digits, 16) else {
        return Err(CaseFault::UnknownEscape);
    };
    let Some(character) = char::from_u32(code) else {
        return Err(CaseFault::UnknownEscape);
    };
    let mut buffer = [0u8; 4];
    out.extend_from_slice(character.encode_utf8(&mut buffer).as_bytes())?;
    Ok(rest)
}

// Puts the character that a letter names, and gives what stands after the letter.
fn add_named<'a>(out: &mut Vec<u8>, piece: &'a str) -> Result<&'a str, CaseFault> {
    for (name, byte) in [('n', b'\n'), ('r', b'\r'), ('t', b'\t'), ('0', b'\0')] {
        if let Some(rest) = piece.strip_prefix(name) {
            out.push(byte)?;
            return Ok(rest);
        }
    }
    Err(CaseFault::UnknownEscape)
}
