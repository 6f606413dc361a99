ghost use Rattle.dk_html.specs.Escaping.{IsEscapedOnce};

/// No two texts are shown by the same bytes, so an output can be read back from a page.
pub fn escaped_once()
    ensures { IsEscapedOnce }
{}
