//! Laws of sphere maps: where a direction lies, its label, least maps, and maps that are built.

ghost use Rattle.law_geometry.specs.sphere.Laws.{SignsKeptGenerically, PlacesDecided, PlacesBySigns, SeenDirectly, OneSideSeesBoth, FreeSeen, ClearLabel, OneLabel, LabelBySigns, OneNearLabel, NearIsFar, SvertexExactly, LeastUnique, LeastMapUnique, ConeFromPieces, OpFromPieces, KindByDimension, OpBuild, SetBuild, OpSmooth};

/// Where a direction lies on a map: it is decided, and the signs on the map's forms say it.
pub fn place_laws()
    ensures generic { SignsKeptGenerically }
    ensures places { PlacesDecided }
    ensures by_signs { PlacesBySigns }
{}

/// Every direction of a valid map has one label, which the signs on the map's forms determine; close to a direction d
/// there is one label toward each direction e.
pub fn label_laws()
    ensures directly { SeenDirectly }
    ensures both { OneSideSeesBoth }
    ensures seen { FreeSeen }
    ensures clear { ClearLabel }
    ensures one { OneLabel }
    ensures by_signs { LabelBySigns }
    ensures near { OneNearLabel }
    ensures far { NearIsFar }
{}

/// Two least maps with one mark and one label in every direction are equal, and the kind of the least map of a set at a
/// point is the dimension of the set's flat directions there.
pub fn least_laws()
    ensures exactly { SvertexExactly }
    ensures unique { LeastUnique }
    ensures cone { LeastMapUnique }
    ensures kind { KindByDimension }
{}

/// A map that is put together from pieces that agree with a set, or with an operation on two maps, is valid, has the
/// labels of the set or of the result, and is least where no svertex is plain or straight.
pub fn build_laws()
    ensures pieces { ConeFromPieces }
    ensures op { OpFromPieces }
    ensures build { OpBuild }
    ensures set { SetBuild }
    ensures smooth { OpSmooth }
{}
