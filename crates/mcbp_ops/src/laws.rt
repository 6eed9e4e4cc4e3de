// The laws of the table of opcodes. Each is a function without an effect, whose clause is the law.
ghost use Rattle.mcbp_ops.specs.Laws.{ReplyTextFits, EachOpcodeIsServed, QuietReadsAsPlain, RefusalsAreWritten};

/// Each opcode of the table has a frame that isn't refused.
pub fn each_opcode_is_served()
    ensures { EachOpcodeIsServed }
{}

/// A frame of a quiet opcode asks for what it would ask for under the plain one, and is refused where that is.
pub fn quiet_reads_as_plain()
    ensures { QuietReadsAsPlain }
{}

/// No quiet opcode hides that its frame is refused, but for the quiet Quit.
pub fn refusals_are_written()
    ensures { RefusalsAreWritten }
{}

/// The text of a reply is a header of 24 bytes, 16 of extras, the key and the value at most.
pub fn reply_text_fits()
    ensures { ReplyTextFits }
{}
