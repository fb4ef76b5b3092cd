//! The keywords, by a table: `find` is proved over any table, and this one is handed to it.
// A table and not a `match`, which is proved byte by byte: on the two words of `name_code` it gives 25 goals.

ghost use Rattle.std.specs.Prelude.{◌≡◌};
ghost use Rattle.lexeme.specs.Rows.{rows_kind};
ghost use Rattle.lexeme.specs.Words.{word_kind};

use token::Kind;

#[derive(Clone, Copy)]
struct Row {
    word: &'static [u8],
    kind: Kind,
}

#[rattlefmt::skip]
const KEYWORDS: [Row; 87] = [
    Row { word: b"await", kind: Kind::AWAIT },
    Row { word: b"break", kind: Kind::BREAK },
    Row { word: b"case", kind: Kind::CASE },
    Row { word: b"catch", kind: Kind::CATCH },
    Row { word: b"class", kind: Kind::CLASS },
    Row { word: b"const", kind: Kind::CONST },
    Row { word: b"continue", kind: Kind::CONTINUE },
    Row { word: b"debugger", kind: Kind::DEBUGGER },
    Row { word: b"default", kind: Kind::DEFAULT },
    Row { word: b"delete", kind: Kind::DELETE },
    Row { word: b"do", kind: Kind::DO },
    Row { word: b"else", kind: Kind::ELSE },
    Row { word: b"enum", kind: Kind::ENUM },
    Row { word: b"export", kind: Kind::EXPORT },
    Row { word: b"extends", kind: Kind::EXTENDS },
    Row { word: b"finally", kind: Kind::FINALLY },
    Row { word: b"for", kind: Kind::FOR },
    Row { word: b"function", kind: Kind::FUNCTION },
    Row { word: b"if", kind: Kind::IF },
    Row { word: b"import", kind: Kind::IMPORT },
    Row { word: b"in", kind: Kind::IN },
    Row { word: b"instanceof", kind: Kind::INSTANCEOF },
    Row { word: b"new", kind: Kind::NEW },
    Row { word: b"return", kind: Kind::RETURN },
    Row { word: b"super", kind: Kind::SUPER },
    Row { word: b"switch", kind: Kind::SWITCH },
    Row { word: b"this", kind: Kind::THIS },
    Row { word: b"throw", kind: Kind::THROW },
    Row { word: b"try", kind: Kind::TRY },
    Row { word: b"typeof", kind: Kind::TYPEOF },
    Row { word: b"var", kind: Kind::VAR },
    Row { word: b"void", kind: Kind::VOID },
    Row { word: b"while", kind: Kind::WHILE },
    Row { word: b"with", kind: Kind::WITH },
    Row { word: b"async", kind: Kind::ASYNC },
    Row { word: b"from", kind: Kind::FROM },
    Row { word: b"get", kind: Kind::GET },
    Row { word: b"meta", kind: Kind::META },
    Row { word: b"of", kind: Kind::OF },
    Row { word: b"set", kind: Kind::SET },
    Row { word: b"target", kind: Kind::TARGET },
    Row { word: b"accessor", kind: Kind::ACCESSOR },
    Row { word: b"source", kind: Kind::SOURCE },
    Row { word: b"defer", kind: Kind::DEFER },
    Row { word: b"abstract", kind: Kind::ABSTRACT },
    Row { word: b"as", kind: Kind::AS },
    Row { word: b"asserts", kind: Kind::ASSERTS },
    Row { word: b"assert", kind: Kind::ASSERT },
    Row { word: b"any", kind: Kind::ANY },
    Row { word: b"boolean", kind: Kind::BOOLEAN },
    Row { word: b"constructor", kind: Kind::CONSTRUCTOR },
    Row { word: b"declare", kind: Kind::DECLARE },
    Row { word: b"infer", kind: Kind::INFER },
    Row { word: b"intrinsic", kind: Kind::INTRINSIC },
    Row { word: b"is", kind: Kind::IS },
    Row { word: b"keyof", kind: Kind::KEYOF },
    Row { word: b"module", kind: Kind::MODULE },
    Row { word: b"namespace", kind: Kind::NAMESPACE },
    Row { word: b"never", kind: Kind::NEVER },
    Row { word: b"out", kind: Kind::OUT },
    Row { word: b"readonly", kind: Kind::READONLY },
    Row { word: b"require", kind: Kind::REQUIRE },
    Row { word: b"number", kind: Kind::NUMBER },
    Row { word: b"object", kind: Kind::OBJECT },
    Row { word: b"satisfies", kind: Kind::SATISFIES },
    Row { word: b"string", kind: Kind::STRING },
    Row { word: b"symbol", kind: Kind::SYMBOL },
    Row { word: b"type", kind: Kind::TYPE },
    Row { word: b"undefined", kind: Kind::UNDEFINED },
    Row { word: b"unique", kind: Kind::UNIQUE },
    Row { word: b"using", kind: Kind::USING },
    Row { word: b"unknown", kind: Kind::UNKNOWN },
    Row { word: b"global", kind: Kind::GLOBAL },
    Row { word: b"bigint", kind: Kind::BIGINT },
    Row { word: b"override", kind: Kind::OVERRIDE },
    Row { word: b"implements", kind: Kind::IMPLEMENTS },
    Row { word: b"interface", kind: Kind::INTERFACE },
    Row { word: b"let", kind: Kind::LET },
    Row { word: b"package", kind: Kind::PACKAGE },
    Row { word: b"private", kind: Kind::PRIVATE },
    Row { word: b"protected", kind: Kind::PROTECTED },
    Row { word: b"public", kind: Kind::PUBLIC },
    Row { word: b"static", kind: Kind::STATIC },
    Row { word: b"yield", kind: Kind::YIELD },
    Row { word: b"true", kind: Kind::TRUE },
    Row { word: b"false", kind: Kind::FALSE },
    Row { word: b"null", kind: Kind::NULL },
];

// The kind of the first row whose word is `text`, or a plain name's.
fn find(rows: &[Row], text: &[u8]) -> Kind
    ensures { result.code ≡ rows_kind rows.now text.now }
{
    rows.iter()
        .find(|row| row.word == text)
        .map_or(Kind::IDENT, |row| row.kind)
}

/// The kind of a word: a keyword's, or a plain name's.
pub(crate) fn word_kind(text: &[u8]) -> Kind
    ensures { result.code ≡ word_kind text.now }
{
    find(&KEYWORDS, text)
}
