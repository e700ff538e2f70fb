use crate::equals::Equals;
use pbx_desc_records::{Location, SourceCodeInfo};

impl Equals for SourceCodeInfo {
    fn equals(&self, other: &SourceCodeInfo) -> bool {
        self.location.equals(&other.location) && self.unknown.equals(&other.unknown)
    }
}

impl Equals for Location {
    fn equals(&self, other: &Location) -> bool {
        self.path.equals(&other.path)
            && self.span.equals(&other.span)
            && self.leading_comments.equals(&other.leading_comments)
            && self.trailing_comments.equals(&other.trailing_comments)
            && self
                .leading_detached_comments
                .equals(&other.leading_detached_comments)
            && self.unknown.equals(&other.unknown)
    }
}
