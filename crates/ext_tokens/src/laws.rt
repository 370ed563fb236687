ghost use Rattle.ext_tokens.specs.Laws.{EndsAreOne, EveryTextHasTokens, NoTokenFollows, TokensAreOne, TokensJoin, TokensPart};

/// A text has one list of tokens: of two readings the longer goes on where the shorter ends.
pub fn tokens_are_one()
    ensures { TokensAreOne }
{}

/// Tokens, and those of what is left behind them, are tokens of the text.
pub fn tokens_join()
    ensures { TokensJoin }
{}

/// Tokens of a text may be parted anywhere: the second part is read from what the first leaves.
pub fn tokens_part()
    ensures { TokensPart }
{}

/// Where only a gap is left, or no token begins behind one, no reading has more tokens.
pub fn no_token_follows()
    ensures { NoTokenFollows }
{}

/// What was scanned is all that any reading has, up to a token that is too long or too deep.
pub fn ends_are_one()
    ensures { EndsAreOne }
{}

/// Every text of whole lines has its tokens, up to its end or to a place that is faulty by itself.
pub fn every_text_has_tokens()
    ensures { EveryTextHasTokens }
{}
