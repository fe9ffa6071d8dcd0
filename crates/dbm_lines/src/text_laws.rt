// Laws of words, fields, lines and scripts. What each says stands in `specs/Texts.antt`,
// `specs/EscapeTexts.antt` and `specs/TextScriptExamples.antt`.
ghost use Rattle.dbm_lines.specs.EscapeTexts.{EscapesReadBack, FieldsArePrintable, KeyFieldLaws, EscapeExamples, KeyFieldExamples, TextLineExamples, LongTextLines};
ghost use Rattle.dbm_lines.specs.TextScriptExamples.{TextCallExamples, TextReplyExamples, LongTextCalls, TextScriptExample, ReplyFields, RepliesDiffer};
ghost use Rattle.dbm_lines.specs.Texts.{WordsReadBack, WordExamples, LineExamples, LongLines, ScriptExample, DumpExamples};

/// A word stands for the bytes that it was made of.
pub fn words_read_back()
    ensures { WordsReadBack }
{}

/// Words that are worked out by hand.
pub fn word_examples()
    ensures { WordExamples }
{}

/// Lines and replies that are worked out by hand, and how long a line may be.
pub fn line_examples()
    ensures examples { LineExamples }
    ensures long { LongLines }
{}

/// A script that is worked out by hand.
pub fn script_example()
    ensures { ScriptExample }
{}

/// Dumps and a listing that are worked out by hand.
pub fn dump_examples()
    ensures { DumpExamples }
{}

/// A field stands for the bytes that it was made of.
pub fn escapes_read_back()
    ensures { EscapesReadBack }
{}

/// A field that is written has printable bytes alone, so neither a tab nor a line feed.
pub fn fields_are_printable()
    ensures { FieldsArePrintable }
{}

/// The field of a key at the head of a line stands for the key, and its line is not passed over.
pub fn key_fields()
    ensures { KeyFieldLaws }
{}

/// Such fields and lines that are worked out by hand.
pub fn key_field_examples()
    ensures { KeyFieldExamples }
{}

/// Fields that are worked out by hand.
pub fn escape_examples()
    ensures { EscapeExamples }
{}

/// Lines and dumps of fields that are worked out by hand, and how long such a line may be.
pub fn text_line_examples()
    ensures examples { TextLineExamples }
    ensures long { LongTextLines }
{}

/// Calls and replies of scripts in the text form that are worked out by hand, a script of them, and
/// how long a line may be.
pub fn text_script_examples()
    ensures calls { TextCallExamples }
    ensures replies { TextReplyExamples }
    ensures script { TextScriptExample }
    ensures long { LongTextCalls }
{}

/// A content or a key in a reply is a field, on one line, that stands for its bytes.
pub fn replies_read_back()
    ensures { ReplyFields }
{}

/// A content or a key is told otherwise than any other reply to its call, and than a bad line.
pub fn replies_differ()
    ensures { RepliesDiffer }
{}
