/// A datatype of XML Schema, Part 2 (section 3).
#[derive(Clone, Copy, Debug, PartialEq, Eq)]
pub enum DataType {
    String,
    NormalizedString,
    Token,
    Nmtoken,
    Name,
    NcName,
    Id,
    Idref,
    Language,
    AnyUri,
    Boolean,
    Integer,
    NonNegativeInteger,
    PositiveInteger,
    Decimal,
}
