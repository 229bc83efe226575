use iso_model::name_map::NameMap;
use iso_model::text::Text;

/// What was changed between two marks. Each name that was changed has a place, with the text that
/// it was given, or with none where it was cleared.
pub(crate) type Places = NameMap<Option<Text>>;
