// Why something is refused, each with document 01's number: a step's reasons in the order in which they are tested, and those of a trace,
// of a file and of a lent buffer.
#[derive(Clone, Copy)]
pub enum Refusal {
    // tables that do not hang together
    Tables = 1,
    // a kind of step that there is not
    Kind = 2,
    // a caller that is neither an interrupt nor the running thread
    Caller = 3,
    // a call that its caller may not make
    Context = 4,
    // an object, or a pipe, that there is not
    Object = 5,
    // a value out of its range, or a checksum that is not the bytes' own
    Value = 6,
    // an object that is not in the state that the call needs
    State = 7,
    // nothing, or another version
    Version = 11,
    // an end inside a record or a file
    Cut = 12,
    // a record or a file of another length
    Length = 13,
    // a size out of its limits
    Size = 14,
    // a trace that is too long
    Long = 15,
    // a buffer that has no room
    Room = 16,
}
