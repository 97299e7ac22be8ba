//! The first words of events, by how many numbers follow them.

ghost use Rattle.vs_event.specs.Reading.{Names, single_word, pair_word};

/// An event of one number.
#[derive(Clone, Copy)]
pub(crate) enum Single {
    Begin,
    Act,
    End,
    Take,
    Cut,
    Start,
    Close,
    Pin,
    Plan,
    Stop,
}

impl Single {
    pub(crate) fn of(word: &[u8]) -> Option<Single>
        ensures { Names single_word word.now result }
    {
        match word {
            b"begin" => Some(Single::Begin),
            b"act" => Some(Single::Act),
            b"end" => Some(Single::End),
            b"take" => Some(Single::Take),
            b"cut" => Some(Single::Cut),
            b"start" => Some(Single::Start),
            b"close" => Some(Single::Close),
            b"pin" => Some(Single::Pin),
            b"plan" => Some(Single::Plan),
            b"stop" => Some(Single::Stop),
            _ => None,
        }
    }
}

/// An event of two numbers.
#[derive(Clone, Copy)]
pub(crate) enum Pair {
    Post,
    NotYet,
    Freeze,
    Chunk,
    Seal,
    Last,
    Abort,
    EndMove,
    Deliver,
    Hear,
    Ask,
    Condemn,
    Wipe,
    Forget,
}

impl Pair {
    pub(crate) fn of(word: &[u8]) -> Option<Pair>
        ensures { Names pair_word word.now result }
    {
        match word {
            b"post" => Some(Pair::Post),
            b"notyet" => Some(Pair::NotYet),
            b"freeze" => Some(Pair::Freeze),
            b"chunk" => Some(Pair::Chunk),
            b"seal" => Some(Pair::Seal),
            b"last" => Some(Pair::Last),
            b"abort" => Some(Pair::Abort),
            b"endmove" => Some(Pair::EndMove),
            b"deliver" => Some(Pair::Deliver),
            b"hear" => Some(Pair::Hear),
            b"ask" => Some(Pair::Ask),
            b"condemn" => Some(Pair::Condemn),
            b"wipe" => Some(Pair::Wipe),
            b"forget" => Some(Pair::Forget),
            _ => None,
        }
    }
}
