//! The types of elements, by the byte that stands before an element's name.

ghost use Rattle.std.specs.Prelude.{◌≡◌};
ghost use Rattle.qe_value.specs.Types.{type_of, type_byte};

/// A type of BSON 1.1 (bsonspec.org), of those that the project reads and writes.
#[derive(Clone, Copy, Debug, PartialEq, Eq)]
pub enum ElementType {
    /// 64-bit binary floating point.
    Double,
    /// A UTF-8 string.
    Str,
    /// An embedded document.
    Doc,
    /// An array.
    Array,
    /// Binary data.
    Binary,
    /// An object id.
    ObjectId,
    /// A bool.
    Bool,
    /// A UTC datetime.
    Date,
    /// Null.
    Null,
    /// A 32-bit integer.
    Int32,
    /// A timestamp.
    Timestamp,
    /// A 64-bit integer.
    Int64,
    /// 128-bit decimal floating point.
    Decimal,
}

impl ElementType {
    /// The type of a byte, if the project has it.
    #[tactic(auto, unfolding(crate::specs::Types::type_of))]
    pub fn of(byte: u8) -> Option<ElementType>
        ensures { result ≡ type_of byte }
    {
        match byte {
            0x01 => Some(ElementType::Double),
            0x02 => Some(ElementType::Str),
            0x03 => Some(ElementType::Doc),
            0x04 => Some(ElementType::Array),
            0x05 => Some(ElementType::Binary),
            0x07 => Some(ElementType::ObjectId),
            0x08 => Some(ElementType::Bool),
            0x09 => Some(ElementType::Date),
            0x0a => Some(ElementType::Null),
            0x10 => Some(ElementType::Int32),
            0x11 => Some(ElementType::Timestamp),
            0x12 => Some(ElementType::Int64),
            0x13 => Some(ElementType::Decimal),
            _ => None,
        }
    }

    /// The byte of the type.
    pub fn byte(self) -> u8
        ensures { result ≡ type_byte self }
    {
        match self {
            ElementType::Double => 0x01,
            ElementType::Str => 0x02,
            ElementType::Doc => 0x03,
            ElementType::Array => 0x04,
            ElementType::Binary => 0x05,
            ElementType::ObjectId => 0x07,
            ElementType::Bool => 0x08,
            ElementType::Date => 0x09,
            ElementType::Null => 0x0a,
            ElementType::Int32 => 0x10,
            ElementType::Timestamp => 0x11,
            ElementType::Int64 => 0x12,
            ElementType::Decimal => 0x13,
        }
    }
}
