ghost use Rattle.std.specs.Prelude.{◌≡◌};
ghost use Rattle.odd_tokens.specs.Declaring.{encoding_is_set, is_declaration_of, is_set_by, standalone_is_set, version_is_set};

use crate::token::{WrittenAttr, WrittenAttrs};

/// Whether the settings of an XML declaration are those of version 1.0 in UTF-8 (XML 1.0, section 2.8).
pub fn is_declaration(settings: &WrittenAttrs) -> bool
    ensures { result ≡ is_declaration_of settings.now }
{
    match settings.as_slice() {
        [version] => is_version(version),
        [version, other] => is_version(version) && (is_encoding(other) || is_standalone(other)),
        [version, encoding, standalone] => is_version(version)
            && is_encoding(encoding)
            && is_standalone(standalone),
        _ => false,
    }
}

fn is_version(setting: &WrittenAttr) -> bool
    ensures { result ≡ version_is_set setting.now }
{
    is_named(setting, "version") && setting.value.as_str() == "1.0"
}

fn is_encoding(setting: &WrittenAttr) -> bool
    ensures { result ≡ encoding_is_set setting.now }
{
    is_named(setting, "encoding") && setting.value.as_str().eq_ignore_ascii_case("utf-8")
}

fn is_standalone(setting: &WrittenAttr) -> bool
    ensures { result ≡ standalone_is_set setting.now }
{
    is_named(setting, "standalone") && matches!(setting.value.as_str(), "yes" | "no")
}

fn is_named(setting: &WrittenAttr, name: &str) -> bool
    ensures { result ≡ is_set_by setting.now name.now }
{
    setting.name.prefix.as_str().is_empty() && setting.name.local.as_str() == name
}
