//! The character sets of collations, by their numbers: those of MySQL 8.4 and of MariaDB 11, by their tables COLLATIONS.

ghost use Rattle.std.specs.Prelude.{◌≡◌, option_map};
ghost use Rattle.changes_character_sets.specs.Collations.{collation_set, has, name_in, named_set, set_name_of, set_named, set_view};

use crate::character_set::CharacterSet;
use crate::tables;

/// A character set, by its name in MySQL.
#[derive(Clone, Copy)]
pub enum SetName {
    Utf8,
    Ascii,
    Ucs2,
    Utf16,
    Utf16Le,
    Utf32,
    Armscii8,
    Cp1250,
    Cp1251,
    Cp1256,
    Cp1257,
    Cp850,
    Cp852,
    Cp866,
    Dec8,
    Geostd8,
    Greek,
    Hebrew,
    Hp8,
    Keybcs2,
    Koi8r,
    Koi8u,
    Latin1,
    Latin2,
    Latin5,
    Latin7,
    Macce,
    Macroman,
    Swe7,
    Tis620,
}

/// The collations with the numbers from the first to the second, which have this character set.
#[derive(Clone, Copy)]
pub struct Collations(u16, u16, SetName);

/// The collations whose character set is known, in the order of their numbers.
static COLLATIONS: [Collations; 153] = [
    Collations(2, 2, SetName::Latin2),
    Collations(3, 3, SetName::Dec8),
    Collations(4, 4, SetName::Cp850),
    Collations(5, 5, SetName::Latin1),
    Collations(6, 6, SetName::Hp8),
    Collations(7, 7, SetName::Koi8r),
    Collations(8, 8, SetName::Latin1),
    Collations(9, 9, SetName::Latin2),
    Collations(10, 10, SetName::Swe7),
    Collations(11, 11, SetName::Ascii),
    Collations(14, 14, SetName::Cp1251),
    Collations(15, 15, SetName::Latin1),
    Collations(16, 16, SetName::Hebrew),
    Collations(18, 18, SetName::Tis620),
    Collations(20, 20, SetName::Latin7),
    Collations(21, 21, SetName::Latin2),
    Collations(22, 22, SetName::Koi8u),
    Collations(23, 23, SetName::Cp1251),
    Collations(25, 25, SetName::Greek),
    Collations(26, 26, SetName::Cp1250),
    Collations(27, 27, SetName::Latin2),
    Collations(29, 29, SetName::Cp1257),
    Collations(30, 30, SetName::Latin5),
    Collations(31, 31, SetName::Latin1),
    Collations(32, 32, SetName::Armscii8),
    Collations(33, 33, SetName::Utf8),
    Collations(34, 34, SetName::Cp1250),
    Collations(35, 35, SetName::Ucs2),
    Collations(36, 36, SetName::Cp866),
    Collations(37, 37, SetName::Keybcs2),
    Collations(38, 38, SetName::Macce),
    Collations(39, 39, SetName::Macroman),
    Collations(40, 40, SetName::Cp852),
    Collations(41, 42, SetName::Latin7),
    Collations(43, 43, SetName::Macce),
    Collations(44, 44, SetName::Cp1250),
    Collations(45, 46, SetName::Utf8),
    Collations(47, 49, SetName::Latin1),
    Collations(50, 52, SetName::Cp1251),
    Collations(53, 53, SetName::Macroman),
    Collations(54, 55, SetName::Utf16),
    Collations(56, 56, SetName::Utf16Le),
    Collations(57, 57, SetName::Cp1256),
    Collations(58, 59, SetName::Cp1257),
    Collations(60, 61, SetName::Utf32),
    Collations(62, 62, SetName::Utf16Le),
    Collations(64, 64, SetName::Armscii8),
    Collations(65, 65, SetName::Ascii),
    Collations(66, 66, SetName::Cp1250),
    Collations(67, 67, SetName::Cp1256),
    Collations(68, 68, SetName::Cp866),
    Collations(69, 69, SetName::Dec8),
    Collations(70, 70, SetName::Greek),
    Collations(71, 71, SetName::Hebrew),
    Collations(72, 72, SetName::Hp8),
    Collations(73, 73, SetName::Keybcs2),
    Collations(74, 74, SetName::Koi8r),
    Collations(75, 75, SetName::Koi8u),
    Collations(76, 76, SetName::Utf8),
    Collations(77, 77, SetName::Latin2),
    Collations(78, 78, SetName::Latin5),
    Collations(79, 79, SetName::Latin7),
    Collations(80, 80, SetName::Cp850),
    Collations(81, 81, SetName::Cp852),
    Collations(82, 82, SetName::Swe7),
    Collations(83, 83, SetName::Utf8),
    Collations(89, 89, SetName::Tis620),
    Collations(90, 90, SetName::Ucs2),
    Collations(92, 93, SetName::Geostd8),
    Collations(94, 94, SetName::Latin1),
    Collations(99, 99, SetName::Cp1250),
    Collations(101, 124, SetName::Utf16),
    Collations(128, 151, SetName::Ucs2),
    Collations(159, 159, SetName::Ucs2),
    Collations(160, 183, SetName::Utf32),
    Collations(192, 215, SetName::Utf8),
    Collations(223, 247, SetName::Utf8),
    Collations(255, 323, SetName::Utf8),
    Collations(576, 578, SetName::Utf8),
    Collations(608, 610, SetName::Utf8),
    Collations(640, 642, SetName::Ucs2),
    Collations(672, 674, SetName::Utf16),
    Collations(736, 738, SetName::Utf32),
    Collations(1027, 1027, SetName::Dec8),
    Collations(1028, 1028, SetName::Cp850),
    Collations(1030, 1030, SetName::Hp8),
    Collations(1031, 1031, SetName::Koi8r),
    Collations(1032, 1032, SetName::Latin1),
    Collations(1033, 1033, SetName::Latin2),
    Collations(1034, 1034, SetName::Swe7),
    Collations(1035, 1035, SetName::Ascii),
    Collations(1040, 1040, SetName::Hebrew),
    Collations(1042, 1042, SetName::Tis620),
    Collations(1046, 1046, SetName::Koi8u),
    Collations(1049, 1049, SetName::Greek),
    Collations(1050, 1050, SetName::Cp1250),
    Collations(1054, 1054, SetName::Latin5),
    Collations(1056, 1056, SetName::Armscii8),
    Collations(1057, 1057, SetName::Utf8),
    Collations(1059, 1059, SetName::Ucs2),
    Collations(1060, 1060, SetName::Cp866),
    Collations(1061, 1061, SetName::Keybcs2),
    Collations(1062, 1062, SetName::Macce),
    Collations(1063, 1063, SetName::Macroman),
    Collations(1064, 1064, SetName::Cp852),
    Collations(1065, 1065, SetName::Latin7),
    Collations(1067, 1067, SetName::Macce),
    Collations(1069, 1070, SetName::Utf8),
    Collations(1071, 1071, SetName::Latin1),
    Collations(1074, 1075, SetName::Cp1251),
    Collations(1077, 1077, SetName::Macroman),
    Collations(1078, 1079, SetName::Utf16),
    Collations(1080, 1080, SetName::Utf16Le),
    Collations(1081, 1081, SetName::Cp1256),
    Collations(1082, 1083, SetName::Cp1257),
    Collations(1084, 1085, SetName::Utf32),
    Collations(1086, 1086, SetName::Utf16Le),
    Collations(1088, 1088, SetName::Armscii8),
    Collations(1089, 1089, SetName::Ascii),
    Collations(1090, 1090, SetName::Cp1250),
    Collations(1091, 1091, SetName::Cp1256),
    Collations(1092, 1092, SetName::Cp866),
    Collations(1093, 1093, SetName::Dec8),
    Collations(1094, 1094, SetName::Greek),
    Collations(1095, 1095, SetName::Hebrew),
    Collations(1096, 1096, SetName::Hp8),
    Collations(1097, 1097, SetName::Keybcs2),
    Collations(1098, 1098, SetName::Koi8r),
    Collations(1099, 1099, SetName::Koi8u),
    Collations(1101, 1101, SetName::Latin2),
    Collations(1102, 1102, SetName::Latin5),
    Collations(1103, 1103, SetName::Latin7),
    Collations(1104, 1104, SetName::Cp850),
    Collations(1105, 1105, SetName::Cp852),
    Collations(1106, 1106, SetName::Swe7),
    Collations(1107, 1107, SetName::Utf8),
    Collations(1113, 1113, SetName::Tis620),
    Collations(1114, 1114, SetName::Ucs2),
    Collations(1116, 1117, SetName::Geostd8),
    Collations(1125, 1125, SetName::Utf16),
    Collations(1147, 1147, SetName::Utf16),
    Collations(1152, 1152, SetName::Ucs2),
    Collations(1174, 1174, SetName::Ucs2),
    Collations(1184, 1184, SetName::Utf32),
    Collations(1206, 1206, SetName::Utf32),
    Collations(1216, 1216, SetName::Utf8),
    Collations(1238, 1238, SetName::Utf8),
    Collations(1248, 1248, SetName::Utf8),
    Collations(1270, 1270, SetName::Utf8),
    Collations(2048, 2559, SetName::Utf8),
    Collations(2560, 2815, SetName::Ucs2),
    Collations(2816, 3071, SetName::Utf16),
    Collations(3072, 3327, SetName::Utf32),
];

impl Collations {
    /// Returns whether the number is one of theirs.
    fn has(&self, collation: u16) -> bool
        ensures { result ≡ has self.now collation }
    {
        self.0 <= collation && collation <= self.1
    }
}

/// Returns the character set of a collation, if it is one of these.
fn name_in(all: &[Collations], collation: u16) -> Option<SetName>
    ensures { result ≡ name_in all.now collation }
{
    for collations in all {
        if collations.has(collation) {
            return Some(collations.2);
        }
    }
    None
}

impl SetName {
    /// Returns the character set with this name, as `SHOW CHARACTER SET` lists it.
    fn named(name: &str) -> Option<SetName>
        ensures { result ≡ set_name_of name.now }
    {
        match name {
            "utf8" | "utf8mb3" | "utf8mb4" => Some(SetName::Utf8),
            "ascii" => Some(SetName::Ascii),
            "ucs2" => Some(SetName::Ucs2),
            "utf16" => Some(SetName::Utf16),
            "utf16le" => Some(SetName::Utf16Le),
            "utf32" => Some(SetName::Utf32),
            "armscii8" => Some(SetName::Armscii8),
            "cp1250" => Some(SetName::Cp1250),
            "cp1251" => Some(SetName::Cp1251),
            "cp1256" => Some(SetName::Cp1256),
            "cp1257" => Some(SetName::Cp1257),
            "cp850" => Some(SetName::Cp850),
            "cp852" => Some(SetName::Cp852),
            "cp866" => Some(SetName::Cp866),
            "dec8" => Some(SetName::Dec8),
            "geostd8" => Some(SetName::Geostd8),
            "greek" => Some(SetName::Greek),
            "hebrew" => Some(SetName::Hebrew),
            "hp8" => Some(SetName::Hp8),
            "keybcs2" => Some(SetName::Keybcs2),
            "koi8r" => Some(SetName::Koi8r),
            "koi8u" => Some(SetName::Koi8u),
            "latin1" => Some(SetName::Latin1),
            "latin2" => Some(SetName::Latin2),
            "latin5" => Some(SetName::Latin5),
            "latin7" => Some(SetName::Latin7),
            "macce" => Some(SetName::Macce),
            "macroman" => Some(SetName::Macroman),
            "swe7" => Some(SetName::Swe7),
            "tis620" => Some(SetName::Tis620),
            _ => None,
        }
    }

    /// Returns the character set with this name.
    fn character_set(self) -> CharacterSet
        ensures { set_view result ≡ set_named self }
    {
        let characters = match self {
            SetName::Utf8 => return CharacterSet::Utf8,
            SetName::Ascii => return CharacterSet::Ascii,
            SetName::Ucs2 => return CharacterSet::Ucs2,
            SetName::Utf16 => return CharacterSet::Utf16,
            SetName::Utf16Le => return CharacterSet::Utf16Le,
            SetName::Utf32 => return CharacterSet::Utf32,
            SetName::Armscii8 => &tables::ARMSCII8,
            SetName::Cp1250 => &tables::CP1250,
            SetName::Cp1251 => &tables::CP1251,
            SetName::Cp1256 => &tables::CP1256,
            SetName::Cp1257 => &tables::CP1257,
            SetName::Cp850 => &tables::CP850,
            SetName::Cp852 => &tables::CP852,
            SetName::Cp866 => &tables::CP866,
            SetName::Dec8 => &tables::DEC8,
            SetName::Geostd8 => &tables::GEOSTD8,
            SetName::Greek => &tables::GREEK,
            SetName::Hebrew => &tables::HEBREW,
            SetName::Hp8 => &tables::HP8,
            SetName::Keybcs2 => &tables::KEYBCS2,
            SetName::Koi8r => &tables::KOI8R,
            SetName::Koi8u => &tables::KOI8U,
            SetName::Latin1 => &tables::LATIN1,
            SetName::Latin2 => &tables::LATIN2,
            SetName::Latin5 => &tables::LATIN5,
            SetName::Latin7 => &tables::LATIN7,
            SetName::Macce => &tables::MACCE,
            SetName::Macroman => &tables::MACROMAN,
            SetName::Swe7 => &tables::SWE7,
            SetName::Tis620 => &tables::TIS620,
        };
        CharacterSet::SingleByte(characters)
    }
}

impl CharacterSet {
    /// The character set of the collation with this number; None if it isn't known here: that of binary strings, big5, cp932, eucjpms,
    /// euckr, gb18030, gb2312, gbk, sjis, ujis, and unknown numbers.
    pub fn of(collation: u16) -> Option<CharacterSet>
        ensures { option_map set_view result ≡ collation_set collation }
    {
        match name_in(&COLLATIONS, collation) {
            Some(name) => Some(name.character_set()),
            None => None,
        }
    }

    /// The character set with this name, as `SHOW CHARACTER SET` lists it; None if it isn't known here.
    pub fn named(name: &str) -> Option<CharacterSet>
        ensures { option_map set_view result ≡ named_set name.now }
    {
        match SetName::named(name) {
            Some(name) => Some(name.character_set()),
            None => None,
        }
    }
}
