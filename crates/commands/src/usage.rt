// How the tool is called.

/// The usage text.
pub const USAGE: &str = "rusvepa: u32 packet filters with one written form

  rusvepa read FILE..      the reading of each filter as a tree, with its counts
  rusvepa write FILE       the written form of a filter, in hexadecimal
  rusvepa same FILE FILE   whether two filters are one entry or two
  rusvepa lines            each line of the standard input is a filter in hexadecimal; answers a line to each:
                             ok OPTIONS ACTIONS ACTION-OPTIONS WRITTEN-HEX   (- for nothing written)
                             fault CAUSE PLACE LAYER NEED NUMBER
                             not hex
  rusvepa page SCRIPT      each line of the script is a call of a page; answers a line to each:
                             ok
                             ok OPTIONS ACTIONS ACTION-OPTIONS   (to read)
                             BYTES-HEX                           (to bytes; - for none)
                             fault CAUSE PLACE LAYER NEED NUMBER
                             line NUMBER: what is wrong with it
  rusvepa build FILE       the calls that build a filter's written form, as a script

A FILE has the attribute bytes of a filter; one whose name ends in .hex has them in hexadecimal, with blanks, line ends and # comments.
A line of a SCRIPT is new N, put WORD HEX, open TYPE, close, strike, with N CALL, read or bytes; a blank line, or one that begins with #, gets no answer.
";
