// The rules of the tables and of decoding, each proved over all opcodes and operand bytes.
ghost use Rattle.instructions.specs.Laws.{Lengths, Cycles, Registers, Vectors, Reserved, Refused, Sizes, Unpolled};

// Lengths are 1 to 3, cycles 1 or 2 and 4 at DIV and MUL; the registers lie apart above 7FH; the vectors lie 8 apart.
pub fn tables_stand()
    ensures lengths { Lengths }
    ensures cycles { Cycles }
    ensures registers { Registers }
    ensures vectors { Vectors }
{}

// Only A5H decodes to nothing; an instruction takes the bytes that the table says; without a poll it takes at most 2 cycles.
pub fn decoding_stands()
    ensures reserved { Reserved }
    ensures refused { Refused }
    ensures sizes { Sizes }
    ensures unpolled { Unpolled }
{}
