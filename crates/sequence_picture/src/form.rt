/// How a picture is written.
#[derive(Clone, Copy, Debug, PartialEq, Eq)]
pub enum Form {
    /// An SVG that stands for itself: it needs no other file and no script.
    Svg,
    /// The text of a sequence diagram for Mermaid.
    Mermaid,
}
