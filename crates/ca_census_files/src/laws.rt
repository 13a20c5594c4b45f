//! A law of the files of a census, over the definitions alone.

ghost use Rattle.ca_census_files.specs.FilesSay.{FilesSayTheirClaims};

/// The claim text over the files of a census is a claim text: read as one, as `ca_text::read_claims` reads it, it says
/// just which rule files it needs, what the file becomes, and what each object is; and no line of it is faulty. The folder,
/// the name and the paths have to be words.
pub fn says_its_claims()
    ensures { FilesSayTheirClaims }
{}
