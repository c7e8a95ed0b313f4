// Images with a stride: what they are and what a walk through one answers, with the laws that tie them to the graph.
#![tactic(auto)]

ghost use Rattle.image.specs.Cases.{CasesHold};
ghost use Rattle.image.specs.Count.{CountLaw};
ghost use Rattle.image.specs.Picture.{ImageLaws};
ghost use Rattle.image.specs.Worked.{Worked};

// The worked cases, as a contract, so that a check asks for their proof.
pub fn cases_stand()
    ensures { CasesHold }
{}

// What holds of every image of a graph, as a contract, so that a check asks for its proof.
pub fn image_laws_stand()
    ensures { ImageLaws }
{}

// How many vertices such an image has, as a contract.
pub fn image_count_stands()
    ensures { CountLaw }
{}

// All of it of the worked example's image, so that what is asked of an image is seen to be met.
pub fn worked_image_stands()
    ensures { Worked }
{}
