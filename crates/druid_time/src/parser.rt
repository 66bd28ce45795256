//! The texts in which an instant is read.
ghost use Rattle.std.specs.Prelude.{◌≡◌, ◌≤◌, length};
ghost use Rattle.druid_time.specs.Texts.{byte_fits, fits_form, has_form, digits_value, number_at};

/// Whether the text has one of the forms.
pub fn has_form(text: &[u8]) -> bool
    ensures { result ≡ has_form text.now }
{
    match text.len() {
        10 => fits(b"dddd-dd-dd", text),
        16 => fits(b"dddd-dd-ddTdd:dd", text),
        17 => fits(b"dddd-dd-ddTdd:ddZ", text),
        19 => fits(b"dddd-dd-ddTdd:dd:dd", text),
        20 => fits(b"dddd-dd-ddTdd:dd:ddZ", text),
        23 => fits(b"dddd-dd-ddTdd:dd:dd.ddd", text),
        24 => fits(b"dddd-dd-ddTdd:dd:dd.dddZ", text),
        _ => false,
    }
}

// Whether the text has this form: a `d` stands for a digit, and each other byte for itself.
fn fits(form: &[u8], text: &[u8]) -> bool
    ensures { result ≡ fits_form form.now text.now }
{
    if form.len() != text.len() {
        return false;
    }
    for (i, wanted) in form.iter().enumerate() {
        if !byte_fits(*wanted, text[i]) {
            return false;
        }
    }
    true
}

// Whether a byte of a text fits the byte of a form.
fn byte_fits(wanted: u8, byte: u8) -> bool
    ensures { result ≡ byte_fits wanted byte }
{
    if wanted == b'd' {
        byte.is_ascii_digit()
    } else {
        byte == wanted
    }
}

/// The number in the digits from that place on, and 0 where the text ends before them.
pub fn number(text: &[u8], at: usize, count: usize) -> u32
    requires place { at ≤ 100 }
    requires digits { count ≤ 4 }
    ensures { result ≡ number_at at count text.now }
{
    if text.len() < at + count {
        return 0;
    }
    value(&text[at..at + count])
}

// The number that digits spell.
fn value(digits: &[u8]) -> u32
    requires { length digits.now ≤ 4 }
    ensures { result ≡ digits_value digits.now }
{
    let mut number = 0;
    for digit in digits {
        number = number * 10 + u32::from(digit.saturating_sub(b'0'));
    }
    number
}
